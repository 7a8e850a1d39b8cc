//! Printing scenarios.

ghost use Rattle.std.specs.Prelude.{◌≡◌, ◌<◌, ℕ, List, [], ◌∷◌, ◌++◌, length, take, OnOk, OnErr, codes, decimal, map};
ghost use Rattle.std.specs.List.{flat_map};
ghost use Rattle.chorus_ui.specs.Text.{name_text};
ghost use Rattle.chorus_lines.specs.Body.{hex_digit, hex_text, body_text};
ghost use Rattle.chorus_scene.specs.Print.{behind, dest_text, command_text, said_as, version_text, sites_text, said_text, said_texts, script_texts, claim_text, step_text, all_ended, printed, IsReadAgain};

use chorus_entry::{Command, Dest};
use chorus_lines::is_text;
use chorus_scene::{ClaimText, Scenario, Script, SetupLine, Step};
use chorus_ui::{Ui, push_decimal};
use std::alloc::AllocError;

/// Appends the text of a scenario, which says the same scenario for the same layout.
///
/// The version is kept. There is one space between fields, LF behind each line but the last, and no skipped line. A body
/// is printed with `=` where all its bytes are 0x20 to 0x7E, else with `x`. The text is no longer than the one that was
/// read. An error leaves `out` as it was.
pub fn print(scenario: &Scenario, out: &mut Vec<u8>) -> Result<(), AllocError>
    ensures text { OnOk result (out.new.items ≡ out.old.items ++ printed scenario.now) }
    ensures again { IsReadAgain scenario.now }
    ensures err { OnErr result (out.new.items ≡ out.old.items) }
{
    let before = out.len();
    let written = push_scenario(scenario, out);
    if written.is_err() {
        out.truncate(before);
    }
    written
}

/// Appends the whole text of a scenario, down to `end`; after an error a part of it may stand there.
fn push_scenario(scenario: &Scenario, out: &mut Vec<u8>) -> Result<(), AllocError>
    ensures text { OnOk result (out.new.items ≡ out.old.items ++ printed scenario.now) }
    ensures again { IsReadAgain scenario.now }
    ensures err { OnErr result (take (length out.old.items) out.new.items ≡ out.old.items) }
{
    let names = scenario.names();
    push_head(scenario.version(), scenario.sites(), out)?;
    push_setup(scenario.setup(), names, out)?;
    push_scripts(scenario.scripts(), out)?;
    push_claims(scenario.claims(), out)?;
    push_schedule(scenario.schedule(), out)?;
    out.extend_from_slice(b"end")?;
    Ok(())
}

/// Appends the first two lines of a scenario: `chorus` with the version, and `sites` with their number.
fn push_head(version: u8, sites: u16, out: &mut Vec<u8>) -> Result<(), AllocError>
    ensures ok { OnOk result
        (out.new.items
        ≡ out.old.items ++ all_ended (version_text version ∷ sites_text sites ∷ [])) }
    ensures err { OnErr result (take (length out.old.items) out.new.items ≡ out.old.items) }
{
    push_numbered(b"chorus", u64::from(version), out)?;
    end_line(out)?;
    push_numbered(b"sites", u64::from(sites), out)?;
    end_line(out)
}

/// Appends the lines of a setup, where these are the names that they begin with.
fn push_setup(lines: &[SetupLine], names: &[Ui], out: &mut Vec<u8>) -> Result<(), AllocError>
    requires { length names.now ≡ length lines.now }
    ensures ok { OnOk result
        (out.new.items ≡ out.old.items ++ all_ended (said_texts names.now lines.now)) }
    ensures err { OnErr result (take (length out.old.items) out.new.items ≡ out.old.items) }
{
    for (at, line) in lines.iter().enumerate() {
        push_setup_line(names[at], line, out)?;
        end_line(out)?;
    }
    Ok(())
}

/// Appends a `port`, `group` or `member` line of the setup, which begins with this name, without its end of line.
fn push_setup_line(name: Ui, line: &SetupLine, out: &mut Vec<u8>) -> Result<(), AllocError>
    ensures ok { OnOk result (out.new.items ≡ out.old.items ++ said_text name line.now) }
    ensures err { OnErr result (take (length out.old.items) out.new.items ≡ out.old.items) }
{
    match line {
        SetupLine::Port { actor, capacity } => {
            push_two_named(b"port", name, *actor, out)?;
            push_number(u64::from(*capacity), out)
        }
        SetupLine::Group { .. } => push_named(b"group", name, out),
        SetupLine::Member { port, .. } => push_two_named(b"member", name, *port, out),
    }
}

/// Appends each script of a scenario: its `script` line and the lines of its commands.
fn push_scripts(scripts: &[Script], out: &mut Vec<u8>) -> Result<(), AllocError>
    ensures ok { OnOk result
        (out.new.items ≡ out.old.items ++ all_ended (flat_map script_texts scripts.now)) }
    ensures err { OnErr result (take (length out.old.items) out.new.items ≡ out.old.items) }
{
    for script in scripts {
        push_script(script, out)?;
    }
    Ok(())
}

/// Appends the line `script ACTOR`, and behind it a line for each command of the script.
fn push_script(script: &Script, out: &mut Vec<u8>) -> Result<(), AllocError>
    ensures ok { OnOk result
        (out.new.items ≡ out.old.items ++ all_ended (script_texts script.now)) }
    ensures err { OnErr result (take (length out.old.items) out.new.items ≡ out.old.items) }
{
    push_named(b"script", script.actor(), out)?;
    end_line(out)?;
    for index in 0..script.commands().len() {
        push_said(script.is_await(index), &script.commands()[index], out)?;
        end_line(out)?;
    }
    Ok(())
}

/// Appends the line of one command of a script, which may be an await, without its end of line.
fn push_said(waits: bool, command: &Command, out: &mut Vec<u8>) -> Result<(), AllocError>
    ensures ok { OnOk result (out.new.items ≡ out.old.items ++ said_as waits command.now) }
    ensures err { OnErr result (take (length out.old.items) out.new.items ≡ out.old.items) }
{
    match command {
        Command::Take { port } => {
            let word = if waits {
                b"await".as_slice()
            } else {
                b"take".as_slice()
            };
            push_named(word, *port, out)
        }
        _ => push_command(command, out),
    }
}

/// Appends the line of one command of a script, without its end of line.
fn push_command(command: &Command, out: &mut Vec<u8>) -> Result<(), AllocError>
    ensures ok { OnOk result (out.new.items ≡ out.old.items ++ command_text command.now) }
    ensures err { OnErr result (take (length out.old.items) out.new.items ≡ out.old.items) }
{
    match command {
        Command::Send { dest, body } => {
            push_dest(dest, out)?;
            push_body(body.bytes(), out)
        }
        Command::Call { port, back, body } => {
            push_two_named(b"call", *port, *back, out)?;
            push_body(body.bytes(), out)
        }
        Command::Retry => out.extend_from_slice(b"retry"),
        Command::Cancel => out.extend_from_slice(b"cancel"),
        Command::Reply { body } => {
            out.extend_from_slice(b"reply")?;
            push_body(body.bytes(), out)
        }
        Command::Take { port } => push_named(b"take", *port, out),
        Command::Move { port, actor } => push_two_named(b"move", *port, *actor, out),
        Command::Delete { port } => push_named(b"delete", *port, out),
        Command::Make { actor, capacity } => {
            push_named(b"newport", *actor, out)?;
            push_number(u64::from(*capacity), out)
        }
        Command::GroupMake { site } => push_numbered(b"newgroup", u64::from(*site), out),
        Command::Join { group, port } => push_two_named(b"join", *group, *port, out),
        Command::Leave { group, port } => push_two_named(b"leave", *group, *port, out),
    }
}

/// Appends the word and the fields of a line `send`, `all`, `one` or `at`, before its body.
fn push_dest(dest: &Dest, out: &mut Vec<u8>) -> Result<(), AllocError>
    ensures ok { OnOk result
        ((body : List ℕ) → out.new.items ++ 32 ∷ body ≡ out.old.items ++ dest_text dest.now body) }
    ensures kept { take (length out.old.items) out.new.items ≡ out.old.items }
{
    match dest {
        Dest::Port(port) => push_named(b"send", *port, out),
        Dest::All(group) => push_named(b"all", *group, out),
        Dest::One(group) => push_named(b"one", *group, out),
        Dest::OneAt(group, site) => {
            push_named(b"at", *group, out)?;
            push_number(u64::from(*site), out)
        }
    }
}

/// Appends the lines of the claims, each as it is spelled.
fn push_claims(claims: &[ClaimText], out: &mut Vec<u8>) -> Result<(), AllocError>
    ensures ok { OnOk result
        (out.new.items ≡ out.old.items ++ all_ended (map claim_text claims.now)) }
    ensures err { OnErr result (take (length out.old.items) out.new.items ≡ out.old.items) }
{
    for claim in claims {
        out.extend_from_slice(b"claim ")?;
        out.extend_from_slice(claim.text())?;
        end_line(out)?;
    }
    Ok(())
}

/// Appends the line `schedule`, and behind it a line for each step of the scenario.
fn push_schedule(steps: &[Step], out: &mut Vec<u8>) -> Result<(), AllocError>
    ensures ok { OnOk result
        (out.new.items ≡ out.old.items ++ all_ended (codes "schedule" ∷ map step_text steps.now)) }
    ensures err { OnErr result (take (length out.old.items) out.new.items ≡ out.old.items) }
{
    out.extend_from_slice(b"schedule\n")?;
    for step in steps {
        push_step(*step, out)?;
        end_line(out)?;
    }
    Ok(())
}

/// Appends a `step`, `deliver` or `drain` line of the schedule, without its end of line.
fn push_step(step: Step, out: &mut Vec<u8>) -> Result<(), AllocError>
    ensures ok { OnOk result (out.new.items ≡ out.old.items ++ step_text step) }
    ensures err { OnErr result (take (length out.old.items) out.new.items ≡ out.old.items) }
{
    match step {
        Step::Step(script) => push_numbered(b"step", u64::from(script), out),
        Step::Deliver(from, to) => {
            push_numbered(b"deliver", u64::from(from), out)?;
            push_number(u64::from(to), out)
        }
        Step::Drain => out.extend_from_slice(b"drain"),
    }
}

/// Appends the word of a scenario's line and a name.
fn push_named(word: &[u8], name: Ui, out: &mut Vec<u8>) -> Result<(), AllocError>
    ensures ok { OnOk result
        (out.new.items ≡ out.old.items ++ (word.now ++ behind (name_text name ∷ []))) }
    ensures err { OnErr result (take (length out.old.items) out.new.items ≡ out.old.items) }
{
    out.extend_from_slice(word)?;
    push_name(name, out)
}

/// Appends the word of a scenario's line and two names.
fn push_two_named(word: &[u8], first: Ui, second: Ui, out: &mut Vec<u8>) -> Result<(), AllocError>
    ensures ok { OnOk result
        (out.new.items
        ≡ out.old.items ++ (word.now ++ behind (name_text first ∷ name_text second ∷ []))) }
    ensures err { OnErr result (take (length out.old.items) out.new.items ≡ out.old.items) }
{
    out.extend_from_slice(word)?;
    push_name(first, out)?;
    push_name(second, out)
}

/// Appends the word of a scenario's line and a number.
fn push_numbered(word: &[u8], number: u64, out: &mut Vec<u8>) -> Result<(), AllocError>
    ensures ok { OnOk result
        (out.new.items ≡ out.old.items ++ (word.now ++ behind (decimal number ∷ []))) }
    ensures err { OnErr result (take (length out.old.items) out.new.items ≡ out.old.items) }
{
    out.extend_from_slice(word)?;
    push_number(number, out)
}

/// Appends a space and the text of a name, as one more field of a scenario's line.
fn push_name(name: Ui, out: &mut Vec<u8>) -> Result<(), AllocError>
    ensures ok { OnOk result (out.new.items ≡ out.old.items ++ 32 ∷ name_text name) }
    ensures err { OnErr result (take (length out.old.items) out.new.items ≡ out.old.items) }
{
    out.push(b' ')?;
    name.text(out)
}

/// Appends a space and the number in decimal, as one more field of a scenario's line.
fn push_number(number: u64, out: &mut Vec<u8>) -> Result<(), AllocError>
    ensures ok { OnOk result (out.new.items ≡ out.old.items ++ 32 ∷ decimal number) }
    ensures err { OnErr result (take (length out.old.items) out.new.items ≡ out.old.items) }
{
    out.push(b' ')?;
    push_decimal(number, out)
}

/// Appends a body as a line's last field: behind `=` as it is where it is printable, else in hex behind `x`.
fn push_body(bytes: &[u8], out: &mut Vec<u8>) -> Result<(), AllocError>
    ensures ok { OnOk result (out.new.items ≡ out.old.items ++ 32 ∷ body_text bytes.now) }
    ensures err { OnErr result (take (length out.old.items) out.new.items ≡ out.old.items) }
{
    if is_text(bytes) {
        out.extend_from_slice(b" =")?;
        out.extend_from_slice(bytes)
    } else {
        out.extend_from_slice(b" x")?;
        push_hex(bytes, out)
    }
}

/// Appends two hexadecimal digits for each byte of a body that cannot be printed as text.
fn push_hex(bytes: &[u8], out: &mut Vec<u8>) -> Result<(), AllocError>
    ensures ok { OnOk result (out.new.items ≡ out.old.items ++ hex_text bytes.now) }
    ensures err { OnErr result (take (length out.old.items) out.new.items ≡ out.old.items) }
{
    for b in bytes {
        out.push(hex_digit(*b / 16))?;
        out.push(hex_digit(*b % 16))?;
    }
    Ok(())
}

/// The hexadecimal digit, `0` to `9` or `a` to `f`, by which a printed scenario says a number below 16.
fn hex_digit(n: u8) -> u8
    requires { n < 16 }
    ensures { result ≡ hex_digit n }
{
    if n < 10 { b'0' + n } else { b'a' - 10 + n }
}

/// Appends the LF that ends a line of a printed scenario.
fn end_line(out: &mut Vec<u8>) -> Result<(), AllocError>
    ensures ok { OnOk result (out.new.items ≡ out.old.items ++ 10 ∷ []) }
    ensures err { OnErr result (take (length out.old.items) out.new.items ≡ out.old.items) }
{
    Ok(out.push(b'\n')?)
}
