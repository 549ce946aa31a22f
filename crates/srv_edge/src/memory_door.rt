ghost use Rattle.std.specs.Prelude.{◌≡◌, ◌<◌, ◌≤◌, ◌+◌, ◌++◌, ◌⊎◌, ◌↔◌, ◌^◌, true, [], ◌∷◌, All, IfOk, IsTrue, min, ◌-◌, vec_capacity, vec_len};
ghost use Rattle.std.specs.VecDeque.{deque_len};
ghost use Rattle.std.proofs.Props.{props};
ghost use Rattle.srv_edge.specs.Count.{HasCause};
ghost use Rattle.srv_edge.specs.Door.{IfLink, IsClosed, IsFailed, links_in};
ghost use Rattle.srv_edge.specs.MemoryLink.{IsFreshLink};

use crate::door::{Accepted, Door};
use crate::failed::SessionEnd;
use crate::faults::FaultCount;
use crate::memory::{Failing, MemLink};
use std::alloc::{AllocError, Global};
use std::collections::VecDeque;

/// Hands out its links in their order, and keeps those that it took back. It fails at the accepts
/// that it is given, counted from 0, and is shut where no link is left.
#[derive(Drop)]
pub struct MemDoor {
    links: VecDeque<MemLink>,
    ended: Vec<(MemLink, SessionEnd)>,
    failing: Failing,
    handed: u64,
    shut: bool,
    faults: FaultCount,
    ghost fresh: { All IsFreshLink links.items } by { Prim.hlevel props },
    ghost room: { handed + deque_len links ≤ vec_capacity ended },
    ghost shut_is: { shut ≡ true → links.items ≡ [] },
}

impl MemDoor {
    ghost use Rattle.srv_edge.specs.MemoryDoor.{ended, failing_accepts, waiting};

    /// It takes the memory for the links that it takes back first.
    pub fn new(alloc: Global, links: Vec<MemLink>, fail: Vec<u32>) -> Result<MemDoor, AllocError>
        requires { All IsFreshLink links.items }
        ensures waiting { IfOk result (λ d. waiting d ≡ links.items) }
        ensures ended { IfOk result (λ d. ended d ≡ []) }
        ensures fails { IfOk result (λ d. (failing_accepts d).calls ≡ fail) }
        ensures none_made { IfOk result (λ d. (failing_accepts d).made ≡ 0) }
        ensures handed { IfOk result (λ d. ⟦<MemDoor as Door>⟧.handed d ≡ 0) }
        ensures returned { IfOk result (λ d. ⟦<MemDoor as Door>⟧.returned d ≡ 0) }
        ensures open { IfOk result (λ d. ¬ IsTrue (⟦<MemDoor as Door>⟧.shut d)) }
        ensures faults { IfOk result (λ d. ⟦<MemDoor as Door>⟧.faults d ≡ 0) }
    {
        let ended = Vec::with_capacity(alloc, links.len())?;
        Ok(MemDoor {
            links: VecDeque::from(links),
            ended,
            failing: Failing::new(fail),
            handed: 0,
            shut: false,
            faults: FaultCount::NONE,
        })
    }

    /// The links that it took back, in that order, each with the end that it was served to.
    pub fn ended(&self) -> &[(MemLink, SessionEnd)]
        ensures { result.now ≡ ended self.now }
    {
        &self.ended
    }
}

impl Door for MemDoor {
    ghost use Rattle.srv_edge.specs.MemoryDoor.{ended, failing_accepts, fails_next, handed_out, waiting};

    type End = MemLink;

    ghost handed = { λ d. d.handed };

    ghost returned = { λ d. vec_len d.ended };

    ghost shut = { λ d. d.shut };

    ghost faults = { λ d. d.faults.count };

    fn accept(&mut self) -> Accepted<MemLink>
        ensures in_order { waiting self.old ≡ handed_out result ++ waiting self.new }
        ensures fresh { IfLink result IsFreshLink }
        ensures fails { IsFailed result ↔ IsTrue (fails_next self.old) }
        ensures closed { IsClosed result
            ↔ ((waiting self.old ≡ []) × ¬ IsTrue (fails_next self.old)) }
        ensures calls { (failing_accepts self.new).calls ≡ (failing_accepts self.old).calls }
        ensures made { (failing_accepts self.new).made
            ≡ min ((failing_accepts self.old).made + 1) (2 ^ 32 - 1) }
        ensures ended { ended self.new ≡ ended self.old }
        ensures handed { ⟦<MemDoor as Door>⟧.handed self.new
            ≡ ⟦<MemDoor as Door>⟧.handed self.old + links_in result }
        ensures shut { IsTrue (⟦<MemDoor as Door>⟧.shut self.new)
            ↔ (IsTrue (⟦<MemDoor as Door>⟧.shut self.old) ⊎ IsClosed result) }
        ensures no_more { IsTrue (⟦<MemDoor as Door>⟧.shut self.old) → links_in result ≡ 0 }
        ensures cause { HasCause (IsFailed result)
            (⟦<MemDoor as Door>⟧.faults self.old) (⟦<MemDoor as Door>⟧.faults self.new) }
    {
        if self.failing.next() {
            let _ = self.faults.add();
            return Accepted::Failed;
        }
        match self.links.pop_front() {
            Some(link) => {
                self.handed += 1;
                Accepted::Link(link)
            }
            None => {
                self.shut = true;
                Accepted::Closed
            }
        }
    }

    fn done(&mut self, link: MemLink, end: SessionEnd)
        requires { ⟦<MemDoor as Door>⟧.returned self.old < ⟦<MemDoor as Door>⟧.handed self.old }
        ensures ended { ended self.new ≡ ended self.old ++ (link, end) ∷ [] }
        ensures waiting { waiting self.new ≡ waiting self.old }
        ensures failing { failing_accepts self.new ≡ failing_accepts self.old }
        ensures handed { ⟦<MemDoor as Door>⟧.handed self.new
            ≡ ⟦<MemDoor as Door>⟧.handed self.old }
        ensures shut { ⟦<MemDoor as Door>⟧.shut self.new ≡ ⟦<MemDoor as Door>⟧.shut self.old }
        ensures faults { ⟦<MemDoor as Door>⟧.faults self.new
            ≡ ⟦<MemDoor as Door>⟧.faults self.old }
    {
        self.ended.push_reserved((link, end));
    }
}
