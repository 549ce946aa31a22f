ghost use Rattle.std.specs.Prelude.{◌≡◌, ◌≢◌, ◌≤◌, ◌<◌, [], refl, length, IfOk, IsErr};
ghost use Rattle.srv_edge.specs.Count.{Counts, HasCause};

use crate::ahead::Ahead;
use crate::failed::Failed;
use crate::faults::FaultCount;
use crate::held::Held;
use crate::link::Link;
use crate::sink::Sink;
use crate::source::Source;
use std::io;
use std::io::Write;
use std::net::Shutdown;
use std::os::unix::net::UnixStream;

/// A client of a socket of the system. It tells no content. Each of its counts rises by one at each
/// error of the system, that of writes also where the system takes nothing, and at nothing else.
///
/// It reads ahead, so that a small frame takes one read. What it is given it writes at once where
/// nothing was read ahead, so that a small reply takes one write. Else it holds it, so that the
/// replies to requests that came together go out together. It holds nothing back while it waits for
/// the client: before it reads it writes what is held, and where that fails, the take fails, since a
/// take leaves the count of the sink. A write to a client that is gone is a fault and raises no
/// signal.
#[derive(Drop)]
pub struct UnixLink {
    stream: UnixStream,
    ahead: Ahead,
    held: Held,
    source_faults: FaultCount,
    sink_faults: FaultCount,
}

impl UnixLink {
    ghost use Rattle.srv_edge.specs.UnixLink.{read_ahead, read_faults, unsent, write_faults};

    pub fn new(stream: UnixStream) -> UnixLink
        ensures reads { read_faults result ≡ 0 }
        ensures writes { write_faults result ≡ 0 }
    {
        UnixLink {
            stream,
            ahead: Ahead::new(),
            held: Held::new(),
            source_faults: FaultCount::NONE,
            sink_faults: FaultCount::NONE,
        }
    }

    // Reads, and writes first what is held if it may have to wait.
    fn read(&mut self, into: &mut [u8]) -> io::Result<usize>
        requires { 0 < length into.old }
        ensures bound { IfOk result (λ n. n ≤ length into.old) }
        ensures sent { read_ahead self.old ≡ [] → unsent self.new ≡ [] }
        ensures kept { read_ahead self.old ≢ [] → unsent self.new ≡ unsent self.old }
        ensures reads { read_faults self.new ≡ read_faults self.old }
        ensures writes { write_faults self.new ≡ write_faults self.old }
    {
        if self.ahead.is_empty() {
            self.held.write_out(&mut self.stream)?;
        }
        self.ahead.read(&mut self.stream, into)
    }

    // Writes, or holds what it is given while there is more to answer.
    fn write(&mut self, bytes: &[u8]) -> io::Result<usize>
        ensures bound { IfOk result (λ n. n ≤ length bytes.now) }
        ensures sent { read_ahead self.old ≡ [] → unsent self.new ≡ [] }
        ensures same { read_ahead self.new ≡ read_ahead self.old }
        ensures reads { read_faults self.new ≡ read_faults self.old }
        ensures writes { write_faults self.new ≡ write_faults self.old }
    {
        if !self.ahead.is_empty() {
            return self.held.put(&mut self.stream, bytes);
        }
        if self.held.is_empty() {
            return self.stream.write(bytes);
        }
        let n = self.held.put(&mut self.stream, bytes)?;
        self.held.write_out(&mut self.stream)?;
        Ok(n)
    }
}

impl Source for UnixLink {
    ghost use Rattle.srv_edge.specs.UnixLink.{read_ahead, read_faults, unsent, write_faults};

    ghost faults = { read_faults };

    ghost beside = { λ l. record { bytes = []; rest = []; faults = write_faults l } };

    fn take(&mut self, into: &mut [u8]) -> Result<usize, Failed>
        requires { 0 < length into.old }
        ensures bound { IfOk result (λ n. n ≤ length into.old) }
        ensures counted { Counts (read_faults self.old) result (read_faults self.new) }
        ensures cause { HasCause (IsErr result) (read_faults self.old) (read_faults self.new) }
        ensures writes { write_faults self.new ≡ write_faults self.old }

        // Nothing is held back while it waits.
        ensures sent { read_ahead self.old ≡ [] → unsent self.new ≡ [] }
        ensures kept { read_ahead self.old ≢ [] → unsent self.new ≡ unsent self.old }
    {
        match self.read(into) {
            Ok(n) => Ok(n),
            Err(_) => Err(self.source_faults.add()),
        }
    }
}

impl Sink for UnixLink {
    ghost use Rattle.srv_edge.specs.UnixLink.{read_ahead, read_faults, unsent, write_faults};

    ghost faults = { write_faults };

    ghost beside = { λ l. record { bytes = []; rest = []; faults = read_faults l } };

    fn give(&mut self, bytes: &[u8]) -> Result<usize, Failed>
        ensures least { IfOk result (λ n. 0 < n) }
        ensures bound { IfOk result (λ n. n ≤ length bytes.now) }
        ensures counted { Counts (write_faults self.old) result (write_faults self.new) }
        ensures cause { HasCause (IsErr result) (write_faults self.old) (write_faults self.new) }
        ensures reads { read_faults self.new ≡ read_faults self.old }

        // Where nothing more is there to be answered, nothing is held.
        ensures sent { read_ahead self.old ≡ [] → unsent self.new ≡ [] }
    {
        match self.write(bytes) {
            Ok(n) if 0 < n => Ok(n),
            _ => Err(self.sink_faults.add()),
        }
    }
}

impl Link for UnixLink {
    /// What was given before still comes to the client.
    fn shutdown(&mut self) {
        let _ = self.held.write_out(&mut self.stream);
        let _ = self.stream.shutdown(Shutdown::Both);
    }

    ghost beside_source_taken = { λ _. refl };

    ghost beside_source_faults = { λ _. refl };

    ghost beside_sink_given = { λ _. refl };

    ghost beside_sink_left = { λ _. refl };

    ghost beside_sink_faults = { λ _. refl };

    ghost same_loans = { λ _. refl };
}
