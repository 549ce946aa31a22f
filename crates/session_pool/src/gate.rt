ghost use Rattle.std.specs.Prelude.{◌≡◌, ◌≤◌, ◌<◌, ◌+◌, ◌^◌, ℕ, Bool, true, false, IfSome, MatchOption};
ghost use Rattle.srv_edge.specs.Count.{Rose};
ghost use Rattle.srv_edge.specs.Finished.{IsFinished, IsFresh, seen_of};

use crate::marks::Marks;
use srv_edge::{Accepted, Door, SessionEnd};
use std::marker::{Brand, PhantomData};
use std::sync::ledger::{Book, Ledger};

/// With what numbers of a door a pool began, and how many links it wants.
pub(crate) trait Shift {
    ghost handed: { ℕ };

    ghost returned: { ℕ };

    ghost shut: { Bool };

    ghost faults: { ℕ };

    ghost wanted: { ℕ };
}

impl Shift for Brand {
    ghost handed = { 0 };

    ghost returned = { 0 };

    ghost shut = { false };

    ghost faults = { 0 };

    ghost wanted = { 0 };
}

/// A door, beside what its workers have done. It lies under a lock.
pub(crate) struct Gate<O: Door, P: Shift, T: Ledger, U: Ledger, V: Ledger> {
    pub door: O,
    pub accepted: u32,
    pub wanted: u32,
    /// Whether no link is to be accepted any more.
    pub stopped: bool,
    pub failed: bool,
    pub taken: Book<T>,
    pub out: Book<U>,
    pub ended: Book<V>,
    pub of: PhantomData<P>,
    pub ghost few: { P.handed < 2 ^ 62 },
    pub ghost no_more_back: { P.returned ≤ P.handed },
    pub ghost wanted_is: { wanted ≡ P.wanted },
    pub ghost at_most: { accepted ≤ wanted },
    pub ghost taken_is: { taken.total ≡ accepted },
    pub ghost handed_is: { O.handed door ≡ P.handed + accepted },
    pub ghost returned_is: { O.returned door + out.total ≡ P.returned + accepted },
    pub ghost ended_is: { 0 < ended.total → stopped ≡ true },
    pub ghost why: { stopped ≡ true → accepted < wanted → failed ≡ false → O.shut door ≡ true },
    pub ghost fault: { failed ≡ true → Rose P.faults (O.faults door) },
    pub ghost never_falls: { P.faults ≤ O.faults door },
    pub ghost still_shut: { P.shut ≡ true → O.shut door ≡ true },
}

impl<O: Door, P: Shift, T: Ledger, U: Ledger, V: Ledger> Gate<O, P, T, U, V> {
    /// Hands the next link to a worker, where one is wanted and one comes.
    pub fn next(&mut self, mine: &mut Marks<T, U, V>) -> Option<O::End>
        requires { 0 < mine.old.taken.parts }
        ensures parts { mine.new.taken.parts ≡ mine.old.taken.parts }
        ensures few { IfSome result (λ _. mine.new.taken.amount < 2 ^ 32) }
        ensures taken { MatchOption result
            (mine.new.taken.amount ≡ mine.old.taken.amount)
            (λ _. mine.new.taken.amount ≡ mine.old.taken.amount + 1) }
        ensures out { MatchOption result
            (mine.new.out.amount ≡ mine.old.out.amount)
            (λ _. mine.new.out.amount ≡ mine.old.out.amount + 1) }
        ensures ended { MatchOption result
            (mine.new.ended.amount ≡ mine.old.ended.amount + 1)
            (λ _. mine.new.ended.amount ≡ mine.old.ended.amount) }
        ensures fresh { IfSome result (λ l. IsFresh (seen_of O.End.Source O.End.Sink l)) }
    {
        if self.stopped || self.accepted == self.wanted {
            self.stop(mine);
            return None;
        }
        match self.door.accept() {
            Accepted::Link(link) => {
                self.accepted += 1;
                self.taken.add(&mut mine.taken, 1);
                self.out.add(&mut mine.out, 1);
                self.taken.audit(&mut mine.taken);
                Some(link)
            }
            Accepted::Closed => {
                self.stop(mine);
                None
            }
            Accepted::Failed => {
                self.failed = true;
                self.stop(mine);
                None
            }
        }
    }

    // Accepts no link any more, which a worker has found.
    fn stop(&mut self, mine: &mut Marks<T, U, V>)
        requires parts { 0 < mine.old.taken.parts }
        requires why { self.old.accepted < self.old.wanted → self.old.failed ≡ false
            → O.shut self.old.door ≡ true }
        ensures parts { mine.new.taken.parts ≡ mine.old.taken.parts }
        ensures taken { mine.new.taken.amount ≡ mine.old.taken.amount }
        ensures out { mine.new.out.amount ≡ mine.old.out.amount }
        ensures ended { mine.new.ended.amount ≡ mine.old.ended.amount + 1 }
    {
        self.stopped = true;
        self.ended.add(&mut mine.ended, 1);
    }

    /// Gives a link back to the door.
    pub fn give_back(&mut self, mine: &mut Marks<T, U, V>, link: O::End, end: SessionEnd)
        requires out { 0 < mine.old.out.amount }
        requires finished { IsFinished (seen_of O.End.Source O.End.Sink link) end }
        ensures parts { mine.new.taken.parts ≡ mine.old.taken.parts }
        ensures taken { mine.new.taken.amount ≡ mine.old.taken.amount }
        ensures out { mine.new.out.amount + 1 ≡ mine.old.out.amount }
        ensures ended { mine.new.ended.amount ≡ mine.old.ended.amount }
    {
        self.out.audit(&mut mine.out);
        self.out.sub(&mut mine.out, 1);
        self.door.done(link, end);
    }

    /// The door, how many links were accepted, and whether it failed, once all workers have ended.
    pub fn close(self, all: &mut Marks<T, U, V>) -> (O, u32, bool)
        requires taken { all.old.taken.parts ≡ T.parts }
        requires out { all.old.taken.parts ≡ U.parts }
        requires parts { all.old.taken.parts ≡ V.parts }
        requires all_back { all.old.out.amount ≡ 0 }
        requires ended { 0 < all.old.ended.amount }
        ensures accepted { result.1 ≡ all.old.taken.amount }
        ensures handed { O.handed result.0 ≡ P.handed + result.1 }
        ensures returned { O.returned result.0 ≡ P.returned + result.1 }
        ensures at_most { result.1 ≤ P.wanted }
        ensures fewer { result.1 < P.wanted → result.2 ≡ false → O.shut result.0 ≡ true }
        ensures failed { result.2 ≡ true → Rose P.faults (O.faults result.0) }
        ensures never_falls { P.faults ≤ O.faults result.0 }
        ensures still_shut { P.shut ≡ true → O.shut result.0 ≡ true }
    {
        let Gate {
            door,
            accepted,
            wanted: _,
            stopped: _,
            failed,
            mut taken,
            mut out,
            mut ended,
            of: _,
        } = self;
        taken.audit(&mut all.taken);
        out.audit(&mut all.out);
        ended.audit(&mut all.ended);
        (door, accepted, failed)
    }
}
