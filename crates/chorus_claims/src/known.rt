//! Whether there is what a word of a claim names.

ghost use Rattle.std.specs.Prelude.{◌≡◌, nat_le};
ghost use Rattle.std.specs.List.{list_any};
ghost use Rattle.chorus_claims.specs.Places.{is_numbered, commands_of, is_command, is_a_script, is_some_command, is_posted, is_at_a_site, is_at_an_actor, is_named, known, is_known};

use crate::place::{Kind, Place, kind_of};
use crate::spelling::{Id, id_in, is_open};
use chorus_lines::number_in;
use chorus_ui::{ACTORS_PER_SITE_LIMIT, Ui};

/// Whether the number is one of so many, which begin at 1.
fn is_numbered(most: u128, number: u128) -> bool
    ensures { result ≡ is_numbered most number }
{
    1 <= number && number <= most
}

/// How many commands the script of this number has.
fn commands_of(commands: &[u32], script: u128) -> u32
    ensures { result ≡ commands_of commands.now script }
{
    if is_numbered(commands.len() as u128, script) {
        commands[script as usize - 1]
    } else {
        0
    }
}

/// Whether a script has as many commands.
fn is_within_some(commands: &[u32], number: u128) -> bool
    ensures { result ≡ list_any (λ most. nat_le number most) commands.now }
{
    commands.iter().any(|most| number <= *most as u128)
}

/// Whether the script has a command of this number, or any script where none is named.
fn is_command(commands: &[u32], script: Option<u128>, number: u128) -> bool
    ensures { result ≡ is_command commands.now script number }
{
    match script {
        Some(script) => is_numbered(u128::from(commands_of(commands, script)), number),
        None => 1 <= number && is_within_some(commands, number),
    }
}

/// Whether there is a script of this number.
fn is_a_script(commands: &[u32], number: Option<u128>) -> bool
    ensures { result ≡ is_a_script commands.now number }
{
    match number {
        Some(number) => is_numbered(commands.len() as u128, number),
        None => false,
    }
}

/// Whether there is a command of this number.
fn is_some_command(commands: &[u32], script: Option<u128>, number: Option<u128>) -> bool
    ensures { result ≡ is_some_command commands.now script number }
{
    match number {
        Some(number) => is_command(commands, script, number),
        None => false,
    }
}

/// Whether the seat of the message is a script that has so many commands.
fn is_posted(commands: &[u32], id: Option<Id>) -> bool
    ensures { result ≡ is_posted commands.now id }
{
    match id {
        Some(id) => is_numbered(u128::from(commands_of(commands, id.seat)), id.number),
        None => false,
    }
}

/// Whether it is the name of something that is made at one of the sites.
fn is_at_a_site(sites: u8, name: Option<Ui>) -> bool
    ensures { result ≡ is_named (is_at_a_site sites) name }
{
    match name {
        Some(name) => name.site() <= u16::from(sites),
        None => false,
    }
}

/// Whether it is the name of an actor of one of the sites.
fn is_at_an_actor(sites: u8, name: Option<Ui>) -> bool
    ensures { result ≡ is_named (is_at_an_actor sites) name }
{
    match name {
        Some(name) => name.site() <= u16::from(sites) && name.number() <= ACTORS_PER_SITE_LIMIT,
        None => false,
    }
}

/// Whether there is what a word of the kind names.
fn known(sites: u8, commands: &[u32], kind: Kind, word: &[u8]) -> bool
    ensures { result ≡ known sites commands.now kind word.now }
{
    match kind {
        Kind::Script => is_a_script(commands, number_in(word)),
        Kind::Command(script) => is_some_command(commands, script, number_in(word)),
        Kind::Message => is_posted(commands, id_in(word)),
        Kind::Port | Kind::Group => is_at_a_site(sites, Ui::parse(word)),
        Kind::Actor => is_at_an_actor(sites, Ui::parse(word)),
        Kind::Number | Kind::Other => true,
    }
}

/// Whether nothing is named at the place that there is not.
pub(crate) fn is_known(sites: u8, commands: &[u32], place: Place, word: &[u8]) -> bool
    ensures { result ≡ is_known sites commands.now place word.now }
{
    is_open(word) || known(sites, commands, kind_of(place), word)
}
