//! Which pairs of a port and an actor a crew may be given.
ghost use Rattle.std.specs.Prelude.{◌≡◌};
ghost use Rattle.std.specs.List.{list_all};
ghost use Rattle.chorus_crew.specs.Pairs.{is_pair, is_free, are_distinct, are_pairs};

use chorus_ui::{Layout, Ui};

/// The most pairs of a crew.
pub const PAIRS_LIMIT: usize = 64;

/// Whether a crew's pair has the name of a port and that of an actor of the layout.
fn is_pair(layout: Layout, port: Ui, actor: Ui) -> bool
    ensures { result ≡ is_pair layout (port, actor) }
{
    if !port.is_port() || !actor.is_actor() {
        return false;
    }
    layout.home(actor).is_some()
}

/// Whether none of a crew's pairs has the port.
fn is_free(port: Ui, pairs: &[(Ui, Ui)]) -> bool
    ensures { result ≡ is_free port pairs.now }
{
    pairs.iter().all(|pair| pair.0 != port)
}

/// Whether no two of a crew's pairs have the same port.
fn are_distinct(pairs: &[(Ui, Ui)]) -> bool
    ensures { result ≡ are_distinct pairs.now }
{
    match pairs {
        [] => true,
        [pair, rest @ ..] => {
            let free = is_free(pair.0, rest);
            free && are_distinct(rest)
        }
    }
}

/// Whether each of a crew's pairs has the name of a port and that of an actor of the layout.
fn are_named(layout: Layout, pairs: &[(Ui, Ui)]) -> bool
    ensures { result ≡ list_all (is_pair layout) pairs.now }
{
    pairs.iter().all(|pair| is_pair(layout, pair.0, pair.1))
}

/// Whether a crew may be given these pairs: there are at most 64 of them, each of a port and an actor of the layout,
/// and the ports are distinct. Takes no memory.
pub fn are_pairs(layout: Layout, pairs: &[(Ui, Ui)]) -> bool
    ensures { result ≡ are_pairs layout pairs.now }
{
    if pairs.len() > PAIRS_LIMIT {
        return false;
    }
    are_named(layout, pairs) && are_distinct(pairs)
}
