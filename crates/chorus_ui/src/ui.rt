//! Names, unique in time and space.

ghost use Rattle.std.specs.List.{before_first, after_first, position};
ghost use Rattle.chorus_ui.specs.Text.{is_dot};
ghost use Rattle.std.specs.Prelude.{◌≡◌, ◌≢◌, ◌++◌, ◌<◌, ◌≤◌, ◌^◌, ◌↔◌, IsSome, IsNone, IfSome, OnOk, OnErr, drop};

use crate::decimal::parse_decimal;
use crate::kind::Kind;
use itoa::write_digits;
use std::alloc::AllocError;
use std::cmp::Ordering;
use std::marker::Model;

/// What a site of 1 adds to the bits.
const SITE_UNIT: u64 = 1 << 48;

/// What a kind of 1 adds to the bits, which is above every number.
const KIND_UNIT: u64 = 1 << 40;

/// The longest text of a name, that of `65535.g.1099511627775`.
const MAX_TEXT: usize = 21;

/// The unique identifier of an actor, a port or a group: the site that made it, from 1 to 65,535, its kind, and
/// its number among what that site made of this kind, from 1 to 2^40 - 1. Names are ordered by site, then by
/// kind, then by number. That each thing has one name for ever is from the Chorus article of 1988; the layout in
/// 64 bits and the text are this project's own.
#[derive(Clone, Copy, Debug)]
pub struct Ui {
    bits: u64,
}

impl Model for Ui {
    ghost use Rattle.chorus_ui.specs.Name.{Name};

    ghost Value = { Name };

    ghost use Rattle.chorus_ui.specs.Bits.{name_bits, name_held, HoldsName, name_bits-name_held};

    ghost view = { λ u. name_held u.bits };

    ghost invariant = { λ u. HoldsName u.bits };

    ghost inverse = { λ name. record { bits = name_bits name } };

    ghost use Rattle.std.proofs.Common.{ap};

    ghost inverse_ok = { λ u h. ap (λ b. record { bits = b }) (name_bits-name_held u.bits h) };
}

impl Ui {
    ghost use Rattle.chorus_ui.specs.Name.{Name, IsName, new_name, name_of_parts};
    ghost use Rattle.chorus_ui.specs.NameKind.{is_actor, is_port, is_group};
    ghost use Rattle.chorus_ui.specs.Bits.{name_bits, name_of_bits};
    ghost use Rattle.chorus_ui.specs.Text.{name_text, parse_name};

    /// The name of these parts. None exactly where the site is 0 or the number is 0 or 2^40 or more.
    pub fn new(site: u16, kind: Kind, number: u64) -> Option<Ui>
        ensures value { result ≡ new_name site kind number }
        ensures valid { IsSome result ↔ (1 ≤ site) × (1 ≤ number) × (number < 2 ^ 40) }
    {
        if site == 0 || number == 0 || number >= KIND_UNIT {
            return None;
        }
        Some(Ui {
            bits: u64::from(site) * SITE_UNIT + u64::from(kind.number()) * KIND_UNIT + number,
        })
    }

    /// The name with these bits. None exactly where no name has them.
    pub fn of_bits(bits: u64) -> Option<Ui>
        ensures value { result ≡ name_of_bits bits }
        ensures some { IfSome result (λ u. name_bits u ≡ bits) }
        ensures none { IsNone result → (u : Name) → IsName u → name_bits u ≢ bits }
    {
        let kind = Kind::with_number((bits / KIND_UNIT % 256) as u8)?;
        Ui::new((bits / SITE_UNIT) as u16, kind, bits % KIND_UNIT)
    }

    /// The site that made it, from 1.
    pub fn site(&self) -> u16
        ensures value { result ≡ self.now.site }
        ensures name { IsName self.now }
    {
        (self.bits / SITE_UNIT) as u16
    }

    /// What it names.
    pub fn kind(&self) -> Kind
        ensures { result ≡ self.now.kind }
    {
        Kind::with_number((self.bits / KIND_UNIT % 256) as u8).unwrap()
    }

    /// Whether it is an actor's name.
    pub fn is_actor(&self) -> bool
        ensures { result ≡ is_actor self.now }
    {
        self.kind() == Kind::Actor
    }

    /// Whether it is a port's name.
    pub fn is_port(&self) -> bool
        ensures { result ≡ is_port self.now }
    {
        self.kind() == Kind::Port
    }

    /// Whether it is a group's name.
    pub fn is_group(&self) -> bool
        ensures { result ≡ is_group self.now }
    {
        self.kind() == Kind::Group
    }

    /// Its number among what its site made of its kind, from 1 to 2^40 - 1.
    pub fn number(&self) -> u64
        ensures value { result ≡ self.now.number }
        ensures name { IsName self.now }
    {
        self.bits % KIND_UNIT
    }

    /// Its 64 bits: from high to low 16 of site, 8 of kind (1, 2 or 3) and 40 of number.
    pub fn bits(&self) -> u64
        ensures value { result ≡ name_bits self.now }
        ensures name { IsName self.now }
    {
        self.bits
    }

    /// The name whose text this is. None exactly where no name has it. Takes no memory.
    pub fn parse(text: &[u8]) -> Option<Ui>
        ensures value { result ≡ parse_name text.now }
        ensures some { IfSome result (λ u. name_text u ≡ text.now) }
        ensures none { IsNone result → (u : Name) → IsName u → name_text u ≢ text.now }
    {
        let (site, rest) = split_at_dot(text);
        let (letter, number) = split_at_dot(rest);
        Ui::of_parts(
            parse_decimal(site),
            Kind::with_text(letter),
            parse_decimal(number),
        )
    }

    /// The name of these parts. None exactly where one of them is missing or there is no such name.
    fn of_parts(site: Option<u64>, kind: Option<Kind>, number: Option<u64>) -> Option<Ui>
        ensures { result ≡ name_of_parts site kind number }
    {
        let site = u16::try_from(site?).ok()?;
        Ui::new(site, kind?, number?)
    }

    /// Appends its text, `site.letter.number` in decimals, where the letter is `a`, `p` or `g`. An error leaves
    /// `out` as it was.
    pub fn text(&self, out: &mut Vec<u8>) -> Result<(), AllocError>
        ensures ok { OnOk result (out.new.items ≡ out.old.items ++ name_text self.now) }
        ensures err { OnErr result (out.new.items ≡ out.old.items) }
    {
        let mut text = [0; MAX_TEXT];
        let start = self.write_text(&mut text);
        out.extend_from_slice(&text[start..])
    }

    /// Writes its text at the end of `text`, and gives where it starts.
    fn write_text(&self, text: &mut [u8; MAX_TEXT]) -> usize
        ensures start { result ≤ MAX_TEXT }
        ensures written { drop result text.new ≡ name_text self.now }
    {
        let behind = write_digits(self.number(), text, MAX_TEXT);
        let dots = behind - 3;
        text[dots] = b'.';
        text[dots + 1] = self.kind().letter();
        text[dots + 2] = b'.';
        write_digits(u64::from(self.site()), text, dots)
    }
}

impl PartialEq for Ui {
    ghost use Rattle.chorus_ui.specs.Name.{same_ui};
    ghost use Rattle.std.proofs.Common.{rules};
    ghost use Rattle.std.specs.Cmp.Rules.{comparing};

    ghost eq = { same_ui };

    ghost laws = { Prim.search (comparing, rules) };

    fn eq(&self, other: &Ui) -> bool {
        self.bits == other.bits
    }
}

impl Eq for Ui {
    ghost use Rattle.std.proofs.Common.{rules};
    ghost use Rattle.std.specs.Cmp.Rules.{comparing};

    ghost laws = { Prim.search (comparing, rules) };
}

impl PartialOrd for Ui {
    ghost use Rattle.chorus_ui.specs.Name.{name_cmp};
    ghost use Rattle.std.proofs.Common.{rules};
    ghost use Rattle.std.specs.Cmp.{partial_order_from_own_ties};
    ghost use Rattle.std.specs.Cmp.Rules.{comparing};
    ghost use Rattle.std.specs.Ordering.{as_partial_cmp};

    ghost partial_cmp = { as_partial_cmp name_cmp };

    ghost laws = { partial_order_from_own_ties
        (Prim.search (comparing, rules)) (Prim.search (comparing, rules)) };

    fn partial_cmp(&self, other: &Ui) -> Option<Ordering> {
        Some(self.cmp(other))
    }
}

impl Ord for Ui {
    ghost use Rattle.chorus_ui.specs.Name.{name_cmp};
    ghost use Rattle.std.proofs.Common.{rules};
    ghost use Rattle.std.specs.Cmp.Rules.{comparing};

    ghost cmp = { name_cmp };

    ghost total = { Prim.search (comparing, rules) };

    ghost matches_partial_cmp = { Prim.search (comparing, rules) };

    ghost matches_eq = { Prim.search (comparing, rules) };

    fn cmp(&self, other: &Ui) -> Ordering {
        self.bits.cmp(&other.bits)
    }
}

/// What stands in the text of a name before the first dot, and what stands behind it; all and nothing where there is none.
fn split_at_dot(text: &[u8]) -> (&[u8], &[u8])
    ensures before { result.0.now ≡ before_first is_dot text.now }
    ensures behind { result.1.now ≡ after_first is_dot text.now }
{
    match first_dot(text) {
        Some(dot) => (&text[..dot], &text[dot + 1..]),
        None => (text, &[]),
    }
}

/// Where the first dot stands in the text of a name, or in the rest of it.
fn first_dot(text: &[u8]) -> Option<usize>
    ensures { result ≡ position is_dot text.now }
{
    text.iter().position(|c| *c == b'.')
}
