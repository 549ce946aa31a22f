ghost use Rattle.std.specs.Prelude.{◌≡◌, ◌<◌, ◌+◌, ◌^◌, ◌⊎◌, ◌↔◌, ℕ, Bool, IsTrue};
ghost use Rattle.srv_edge.specs.Count.{HasCause};
ghost use Rattle.srv_edge.specs.Door.{IfLink, IsClosed, IsFailed, links_in};
ghost use Rattle.srv_edge.specs.Finished.{IsFinished, IsFresh, seen_of};

use crate::failed::SessionEnd;
use crate::link::Link;

/// What a door answers when it is asked for a link.
#[derive(Drop)]
pub enum Accepted<E> {
    Link(E),
    /// No link will come any more.
    Closed,
    /// It failed, and counted a fault.
    Failed,
}

/// Where the links of a server come from, and where they go back to.
pub trait Door {
    type End: Link + Drop;

    /// How many links it has handed out.
    ghost handed: { Self → ℕ };

    /// How many it has taken back.
    ghost returned: { Self → ℕ };

    /// Whether no link will come any more.
    ghost shut: { Self → Bool };

    /// How often it has failed.
    ghost faults: { Self → ℕ };

    /// Hands out the next link. It may wait for one.
    fn accept(&mut self) -> Accepted<Self::End>
        requires { handed self.old < 2 ^ 63 }
        ensures handed { handed self.new ≡ handed self.old + links_in result }
        ensures returned { returned self.new ≡ returned self.old }
        ensures fresh { IfLink result (λ l. IsFresh (seen_of Self.End.Source Self.End.Sink l)) }
        ensures shut { IsTrue (shut self.new) ↔ (IsTrue (shut self.old) ⊎ IsClosed result) }
        ensures no_more { IsTrue (shut self.old) → links_in result ≡ 0 }
        ensures below { faults self.new < 2 ^ 64 }
        ensures cause { HasCause (IsFailed result) (faults self.old) (faults self.new) };

    /// Takes a link back that was served to this end. It takes no memory.
    fn done(&mut self, link: Self::End, end: SessionEnd)
        requires finished { IsFinished (seen_of Self.End.Source Self.End.Sink link) end }
        requires out { returned self.old < handed self.old }
        ensures returned { returned self.new ≡ returned self.old + 1 }
        ensures handed { handed self.new ≡ handed self.old }
        ensures shut { shut self.new ≡ shut self.old }
        ensures faults { faults self.new ≡ faults self.old };
}
