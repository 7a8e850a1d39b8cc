//! What the first line of a journal says.

ghost use Rattle.std.specs.Prelude.{◌≡◌, ◌≤◌, drop, length};
ghost use Rattle.chorus_lines.specs.Text.{cut};
ghost use Rattle.chorus_show.specs.Reading.{u16_in, u32_in};
ghost use Rattle.judge_heads.specs.Heads.{layout_for, IsPlain};
ghost use Rattle.judge_heads.specs.Reading.{head_in, in_count, in_line, in_words, layout_in};

use chorus_lines::cut;
use chorus_ui::{Layout, parse_decimal};

/// What the line `journal N SITES TURNS` says, and how many bytes its parts have.
#[derive(Clone, Copy)]
pub(crate) struct Head {
    /// The layout.
    pub layout: Layout,
    /// The bytes of `journal N`.
    pub word: usize,
    /// Those of ` SITES TURNS`.
    pub gap: usize,
}

/// The layout that a journal is judged for: the one that is asked for, else the one that its head names, else 16 sites of one place
/// each.
pub fn layout_for(asked: Option<Layout>, named: Option<Layout>) -> Layout
    ensures { result ≡ layout_for asked named }
{
    match asked.or(named) {
        Some(layout) => layout,
        None => Layout::new(16, 1).unwrap(),
    }
}

/// Makes of a judged text whose first line names a layout the text with the plain head, where it stands: from the index that is
/// given on. Beside it stands the layout; None exactly where the first line names none, and then the text stays.
pub fn make_plain(text: &mut [u8]) -> (Option<Layout>, usize)
    ensures plain { IsPlain text.old result.0 (drop result.1 text.new) }
    ensures inside { result.1 ≤ length text.new }
    ensures length { length text.new ≡ length text.old }
{
    match head_in(text) {
        Some(head) => {
            text.copy_within(0..head.word, head.gap);
            (Some(head.layout), head.gap)
        }
        None => (None, 0),
    }
}

/// The number of 16 bits that a word of a head says.
fn short_in(word: &[u8]) -> Option<u16>
    ensures { result ≡ u16_in word.now }
{
    u16::try_from(parse_decimal(word)?).ok()
}

/// The number of 32 bits that a word of a head says.
fn count_in(word: &[u8]) -> Option<u32>
    ensures { result ≡ u32_in word.now }
{
    u32::try_from(parse_decimal(word)?).ok()
}

/// The layout that two words of a head say.
fn layout_in(sites: &[u8], turns: &[u8]) -> Option<Layout>
    ensures { result ≡ layout_in sites.now turns.now }
{
    let sites = short_in(sites)?;
    let turns = short_in(turns)?;
    Layout::new(sites, turns)
}

/// The layout that three words of a head say, and how many bytes `journal N` has, of which N is the first of them.
fn in_words(count: &[u8], sites: &[u8], turns: &[u8]) -> Option<(Layout, usize)>
    ensures { result ≡ in_words count.now sites.now turns.now }
{
    if count_in(count).is_none() {
        return None;
    }
    let layout = layout_in(sites, turns)?;
    Some((layout, 8 + count.len()))
}

/// The same of the text in which these words of a head stand.
fn in_count(text: &[u8]) -> Option<(Layout, usize)>
    ensures { result ≡ in_count (cut 32 text.now) }
{
    let (count, rest) = cut(b' ', text);
    let (sites, turns) = cut(b' ', rest?);
    in_words(count, sites, turns?)
}

/// The same of the line that is a head, without its LF.
fn in_line(line: &[u8]) -> Option<(Layout, usize)>
    ensures { result ≡ in_line (cut 32 line.now) }
{
    let (word, rest) = cut(b' ', line);
    let rest = rest?;
    if word == b"journal".as_slice() {
        in_count(rest)
    } else {
        None
    }
}

/// The head that names a layout, with which a judged text begins.
fn head_in(text: &[u8]) -> Option<Head>
    ensures { result ≡ head_in text.now }
{
    let (line, rest) = cut(b'\n', text);
    if rest.is_none() {
        return None;
    }
    let (layout, word) = in_line(line)?;
    Some(Head {
        layout,
        word,
        gap: line.len().saturating_sub(word),
    })
}
