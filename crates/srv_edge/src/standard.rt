ghost use Rattle.std.specs.Prelude.{◌≡◌, ◌≤◌, ◌<◌, length, IfOk, IsErr};
ghost use Rattle.srv_edge.specs.Count.{Counts, HasCause};

use crate::failed::Failed;
use crate::faults::FaultCount;
use crate::sink::Sink;
use crate::source::Source;
use std::io::{Read, Write};

/// A reader of the system, such as standard input, as a source. It tells no content. Its count
/// rises by one at each error of the system, and at nothing else.
#[derive(Drop)]
pub struct StdIn<R> {
    input: R,
    faults: FaultCount,
}

impl<R: Read> StdIn<R> {
    pub fn new(input: R) -> StdIn<R>
        ensures { ⟦<StdIn<R> as Source>⟧.faults result ≡ 0 }
    {
        StdIn {
            input,
            faults: FaultCount::NONE,
        }
    }
}

impl<R: Read> Source for StdIn<R> {
    ghost use Rattle.srv_edge.specs.Standard.{faults_in};

    ghost faults = { λ s. s.faults.count };

    fn take(&mut self, into: &mut [u8]) -> Result<usize, Failed>
        ensures bound { IfOk result (λ n. n ≤ length into.old) }
        ensures counted { Counts (faults_in self.old) result (faults_in self.new) }
        ensures cause { HasCause (IsErr result) (faults_in self.old) (faults_in self.new) }
    {
        match self.input.read(into) {
            Ok(n) => Ok(n),
            Err(_) => Err(self.faults.add()),
        }
    }
}

/// A writer of the system, such as standard output, as a sink. It tells no content. Its count rises
/// by one at each error of the system and where the system takes nothing, and at nothing else.
#[derive(Drop)]
pub struct StdOut<W> {
    output: W,
    faults: FaultCount,
}

impl<W: Write> StdOut<W> {
    pub fn new(output: W) -> StdOut<W>
        ensures { ⟦<StdOut<W> as Sink>⟧.faults result ≡ 0 }
    {
        StdOut {
            output,
            faults: FaultCount::NONE,
        }
    }
}

impl<W: Write> Sink for StdOut<W> {
    ghost use Rattle.srv_edge.specs.Standard.{faults_out};

    ghost faults = { λ s. s.faults.count };

    fn give(&mut self, bytes: &[u8]) -> Result<usize, Failed>
        ensures least { IfOk result (λ n. 0 < n) }
        ensures bound { IfOk result (λ n. n ≤ length bytes.now) }
        ensures counted { Counts (faults_out self.old) result (faults_out self.new) }
        ensures cause { HasCause (IsErr result) (faults_out self.old) (faults_out self.new) }
    {
        match self.output.write(bytes) {
            Ok(n) if 0 < n => Ok(n),
            _ => Err(self.faults.add()),
        }
    }
}
