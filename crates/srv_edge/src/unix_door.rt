ghost use Rattle.std.specs.Prelude.{◌≡◌, ◌≤◌, ◌<◌, ◌+◌, ◌-◌, ◌^◌, ◌⊎◌, ◌↔◌, true, false, min, IfOk, IsNone, IsTrue};
ghost use Rattle.srv_edge.specs.Count.{HasCause, last_count};
ghost use Rattle.srv_edge.specs.Door.{IfLink, IsClosed, IsFailed, failures_in, links_in};
ghost use Rattle.srv_edge.specs.Finished.{IsFresh, seen_of};

use crate::door::{Accepted, Door};
use crate::failed::SessionEnd;
use crate::faults::FaultCount;
use crate::private_socket::PrivateSocket;
use crate::sink::Sink;
use crate::source::Source;
use crate::unix_link::UnixLink;
use std::alloc::{AllocError, Global};
use std::fs::{File, Files};
use std::net::Net;
use std::os::unix::net::UnixStream;

/// The clients of a socket of the system, in the order in which they come. It tells no content, is
/// never shut, and its count rises by one at each error of the system, and at nothing else.
#[derive(Drop)]
pub struct UnixDoor {
    socket: Option<PrivateSocket>,
    handed: u64,
    returned: u64,
    faults: FaultCount,
}

impl UnixDoor {
    ghost use Rattle.srv_edge.specs.UnixDoor.{has_no_socket};

    /// Listens at a path, where only the user of this process can connect. A socket that a server
    /// left there is replaced. Where a server runs there, or something stands there that is no
    /// socket, and where the system refuses, there is no socket. To look costs a running server no
    /// session: it holds a lock on a file beside its socket, at the path with `.lock` behind it.
    pub fn listen<R: Files<File = File> + Net>(
        rt: &R,
        alloc: Global,
        path: &str,
    ) -> Result<UnixDoor, AllocError>
        ensures handed { IfOk result (λ d. ⟦<UnixDoor as Door>⟧.handed d ≡ 0) }
        ensures returned { IfOk result (λ d. ⟦<UnixDoor as Door>⟧.returned d ≡ 0) }
        ensures faults { IfOk result (λ d. ⟦<UnixDoor as Door>⟧.faults d ≡ 0) }
    {
        Ok(UnixDoor {
            socket: PrivateSocket::listen(rt, alloc, path)?,
            handed: 0,
            returned: 0,
            faults: FaultCount::NONE,
        })
    }

    /// Where there is no socket. Each call fails.
    pub fn absent() -> UnixDoor
        ensures absent { has_no_socket result ≡ true }
        ensures handed { ⟦<UnixDoor as Door>⟧.handed result ≡ 0 }
        ensures returned { ⟦<UnixDoor as Door>⟧.returned result ≡ 0 }
        ensures faults { ⟦<UnixDoor as Door>⟧.faults result ≡ 0 }
    {
        UnixDoor {
            socket: None,
            handed: 0,
            returned: 0,
            faults: FaultCount::NONE,
        }
    }

    /// Takes the socket away. One that is let go without this stands until the next server replaces
    /// it, as after a crash.
    pub fn close(self, rt: &impl Files) {
        let UnixDoor {
            socket,
            handed: _,
            returned: _,
            faults: _,
        } = self;
        if let Some(socket) = socket {
            socket.close(rt);
        }
    }
}

impl Door for UnixDoor {
    ghost use Rattle.srv_edge.specs.UnixDoor.{has_no_socket};

    type End = UnixLink;

    ghost handed = { λ d. d.handed };

    ghost returned = { λ d. d.returned };

    ghost shut = { λ _. false };

    ghost faults = { λ d. d.faults.count };

    fn accept(&mut self) -> Accepted<UnixLink>
        requires { ⟦<UnixDoor as Door>⟧.handed self.old < 2 ^ 63 }
        ensures handed { ⟦<UnixDoor as Door>⟧.handed self.new
            ≡ ⟦<UnixDoor as Door>⟧.handed self.old + links_in result }
        ensures returned { ⟦<UnixDoor as Door>⟧.returned self.new
            ≡ ⟦<UnixDoor as Door>⟧.returned self.old }
        ensures fresh { IfLink result
            (λ l. IsFresh (seen_of ⟦<UnixLink as Source>⟧ ⟦<UnixLink as Sink>⟧ l)) }
        ensures never_closed { ¬ IsClosed result }
        ensures counted { ⟦<UnixDoor as Door>⟧.faults self.new
            ≡ min (⟦<UnixDoor as Door>⟧.faults self.old + failures_in result) last_count }
        ensures cause { HasCause (IsFailed result)
            (⟦<UnixDoor as Door>⟧.faults self.old) (⟦<UnixDoor as Door>⟧.faults self.new) }
        ensures present { has_no_socket self.new ≡ has_no_socket self.old }
        ensures absent { has_no_socket self.old ≡ true → IsFailed result }
    {
        let Some(stream) = next_stream(&self.socket) else {
            let _ = self.faults.add();
            return Accepted::Failed;
        };
        self.handed += 1;
        Accepted::Link(UnixLink::new(stream))
    }

    fn done(&mut self, link: UnixLink, _end: SessionEnd) {
        self.returned += 1;
    }
}

// Waits for the next client.
fn next_stream(socket: &Option<PrivateSocket>) -> Option<UnixStream>
    ensures { IsNone socket.now → IsNone result }
{
    match socket {
        Some(socket) => socket.accept().ok(),
        None => None,
    }
}
