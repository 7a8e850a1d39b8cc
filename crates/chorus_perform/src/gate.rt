//! What a script passes before each of its commands.

/// What each script passes before each of its commands, and once more after the last. It has no promise: a gate may let pass at once,
/// or hold a script until another one has come as far, which a test of threads does. Where no thread can be made scripts run in turn, and
/// a gate that holds one for another waits for ever.
pub trait Gate: Sync {
    /// Lets a script pass the gate: called by the script of this number, from 1, before its command `step`, counted from 0, and
    /// once more with the number of its commands.
    fn pass(&self, script: u32, step: u32);
}

/// A gate that lets all pass at once.
#[derive(Clone, Copy, Debug)]
pub struct OpenGate;

impl Gate for OpenGate {
    fn pass(&self, _script: u32, _step: u32) {}
}
