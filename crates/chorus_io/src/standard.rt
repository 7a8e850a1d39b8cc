//! Standard input, output and error. They tell nothing of their bytes: what a process reads and shows is outside any contract.
ghost use Rattle.std.specs.Prelude.{◌≡◌};

use crate::count::raise;
use crate::{Failed, Sink, Source};
use std::io::{Read, Write};
use std::rt::{Stderr, Stdin, Stdout};

/// Standard input.
#[derive(Drop)]
pub struct StdSource {
    stdin: Stdin,
    faults: u64,
}

impl StdSource {
    /// Standard input as a source that met no fault yet.
    pub fn new(stdin: Stdin) -> Self
        ensures { ⟦<StdSource as Source>⟧.faults result ≡ 0 }
    {
        StdSource { stdin, faults: 0 }
    }
}

impl Source for StdSource {
    ghost faults = { λ s. s.faults };

    fn read(&mut self, buf: &mut [u8]) -> Result<usize, Failed> {
        match self.stdin.read(buf) {
            Ok(n) => Ok(n),
            Err(_) => {
                self.faults = raise(self.faults);
                Err(Failed)
            }
        }
    }

    fn faults(&self) -> u64 {
        self.faults
    }
}

/// A standard stream to which bytes are written.
#[derive(Drop)]
pub struct StdStream<W: Write + Drop> {
    stream: W,
    faults: u64,
}

/// Standard output.
pub type StdSink = StdStream<Stdout>;

/// Standard error.
pub type StdErrors = StdStream<Stderr>;

impl<W: Write + Drop> StdStream<W> {
    /// A standard stream as a sink that met no fault yet.
    pub fn new(stream: W) -> Self
        ensures { ⟦<StdStream<W> as Sink>⟧.faults result ≡ 0 }
    {
        StdStream { stream, faults: 0 }
    }
}

impl<W: Write + Drop> Sink for StdStream<W> {
    ghost faults = { λ s. s.faults };

    /// Fails also where the device takes no byte.
    fn write(&mut self, bytes: &[u8]) -> Result<usize, Failed> {
        match self.stream.write(bytes) {
            Ok(n) if n > 0 => Ok(n),
            _ => {
                self.faults = raise(self.faults);
                Err(Failed)
            }
        }
    }

    fn faults(&self) -> u64 {
        self.faults
    }
}
