//! The program `chorus`.

#![tactic(auto)]

use chorus_program::process;
use std::process::ExitCode;

/// Does what the words of the command line ask and gives the exit status.
fn main(rt: HostRuntime) -> ExitCode {
    process(&rt, &rt)
}
