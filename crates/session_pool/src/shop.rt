ghost use Rattle.std.specs.Prelude.{◌≡◌, ◌<◌, ◌+◌, ◌^◌, IfSome, MatchOption};
ghost use Rattle.srv_edge.specs.Finished.{IsFresh, seen_of};

use crate::gate::{Gate, Shift};
use crate::halves::Shop;
use crate::marks::Marks;
use crate::work::Work;
use srv_edge::{Door, Link};
use std::sync::ledger::Ledger;
use std::sync::{Mutex, Wait};

/// A door under its lock, and what may wait for it.
#[derive(Drop)]
pub(crate) struct Lobby<'a, R: Wait, O: Door, P: Shift, T: Ledger, U: Ledger, V: Ledger> {
    pub rt: &'a R,
    pub gate: &'a Mutex<Gate<O, P, T, U, V>>,
}

impl<'a, R: Wait, O: Door, W: Work<R, O::End>, P: Shift, T: Ledger, U: Ledger, V: Ledger> Shop<
    W,
    Marks<T, U, V>,
> for Lobby<'a, R, O, P, T, U, V> {
    ghost served = { W.served };

    ghost badge = { W.badge };

    fn work(&self, mine: &mut Marks<T, U, V>, worker: &mut W) {
        work(self.rt, self.gate, mine, worker)
    }
}

// Accepts links and serves them, until none is wanted or none comes. While a link is served the
// door is free for others. Another may wait at the door with the lock when the link is given back,
// so its streams are ended before that.
fn work<R: Wait, O: Door, W: Work<R, O::End>, P: Shift, T: Ledger, U: Ledger, V: Ledger>(
    rt: &R,
    gate: &Mutex<Gate<O, P, T, U, V>>,
    mine: &mut Marks<T, U, V>,
    worker: &mut W,
)
    requires parts { 0 < mine.old.taken.parts }
    requires none_taken { mine.old.taken.amount ≡ 0 }
    requires none_out { mine.old.out.amount ≡ 0 }
    requires few { W.served worker.old < 2 ^ 62 }
    ensures parts { mine.new.taken.parts ≡ mine.old.taken.parts }
    ensures served { W.served worker.new ≡ W.served worker.old + mine.new.taken.amount }
    ensures badge { W.badge worker.new ≡ W.badge worker.old }
    ensures all_back { mine.new.out.amount ≡ 0 }
    ensures ended { 0 < mine.new.ended.amount }
{
    'links: loop {
        let Some(mut link) = next_link(rt, gate, mine) else {
            return;
        };
        let end = worker.serve(rt, &mut link);
        link.shutdown();
        gate.lock(rt).give_back(mine, link, end);
    }
}

// The next link, where one is wanted and one comes. The lock is free again when it is there.
fn next_link<R: Wait, O: Door, P: Shift, T: Ledger, U: Ledger, V: Ledger>(
    rt: &R,
    gate: &Mutex<Gate<O, P, T, U, V>>,
    mine: &mut Marks<T, U, V>,
) -> Option<O::End>
    requires { 0 < mine.old.taken.parts }
    ensures parts { mine.new.taken.parts ≡ mine.old.taken.parts }
    ensures few { IfSome result (λ _. mine.new.taken.amount < 2 ^ 32) }
    ensures taken { MatchOption result
        (mine.new.taken.amount ≡ mine.old.taken.amount)
        (λ _. mine.new.taken.amount ≡ mine.old.taken.amount + 1) }
    ensures out { MatchOption result
        (mine.new.out.amount ≡ mine.old.out.amount)
        (λ _. mine.new.out.amount ≡ mine.old.out.amount + 1) }
    ensures ended { MatchOption result
        (mine.new.ended.amount ≡ mine.old.ended.amount + 1)
        (λ _. mine.new.ended.amount ≡ mine.old.ended.amount) }
    ensures fresh { IfSome result (λ l. IsFresh (seen_of O.End.Source O.End.Sink l)) }
{
    gate.lock(rt).next(mine)
}
