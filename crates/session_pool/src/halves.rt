ghost use Rattle.std.specs.Prelude.{◌≡◌, ◌<◌, ◌+◌, ◌^◌, ℕ, List};
ghost use denote.Param.Send.{IsSend, IsSync};
ghost use Rattle.session_pool.specs.Served.{CanWork, HaveServed};

use crate::marks::Tally;
use std::thread::{Threads, join_mut};

/// What workers do, each in a thread of its own.
pub(crate) trait Shop<W, M: Tally> {
    /// How many links a worker has served.
    ghost served: { W → ℕ };

    /// Which worker it is.
    ghost badge: { W → List ℕ };

    /// One worker works until the end, and marks what it did.
    fn work(&self, mine: &mut M, worker: &mut W)
        requires parts { 0 < M.parts mine.old }
        requires none_taken { M.taken mine.old ≡ 0 }
        requires none_out { M.out mine.old ≡ 0 }
        requires few { served worker.old < 2 ^ 62 }
        ensures parts { M.parts mine.new ≡ M.parts mine.old }
        ensures served { served worker.new ≡ served worker.old + M.taken mine.new }
        ensures badge { badge worker.new ≡ badge worker.old }
        ensures all_back { M.out mine.new ≡ 0 }
        ensures ended { 0 < M.ended mine.new };
}

/// All workers, half of them in another thread and half of them in this one, and so on in each
/// half.
#[cycle(halves)]
pub(crate) fn work_all<R: Threads + Sync, W: Send, M: Tally + Send, S: Shop<W, M> + Sync>(
    rt: &R,
    shop: &S,
    mine: &mut M,
    workers: &mut [W],
)
    requires { CanWork S.served (M.parts mine.old) (M.taken mine.old) (M.out mine.old)
        workers.old }
    ensures parts { M.parts mine.new ≡ M.parts mine.old }
    ensures served { HaveServed S.served S.badge workers.old workers.new (M.taken mine.new) }
    ensures all_back { M.out mine.new ≡ 0 }
    ensures ended { 0 < M.ended mine.new }
{
    if workers.len() == 1 {
        shop.work(mine, &mut workers[0]);
        return;
    }
    let half = workers.len() / 2;
    let mut theirs = mine.split_off(half as u64);
    let (low, high) = workers.split_at_mut(half);
    both_halves(rt, shop, &mut theirs, low, mine, high);
    mine.merge(theirs);
}

// Two halves side by side.
#[cycle(halves)]
fn both_halves<R: Threads + Sync, W: Send, M: Tally + Send, S: Shop<W, M> + Sync>(
    rt: &R,
    shop: &S,
    theirs: &mut M,
    low: &mut [W],
    mine: &mut M,
    high: &mut [W],
)
    requires low { CanWork S.served (M.parts theirs.old) (M.taken theirs.old) (M.out theirs.old)
        low.old }
    requires high { CanWork S.served (M.parts mine.old) (M.taken mine.old) (M.out mine.old)
        high.old }
    ensures low_parts { M.parts theirs.new ≡ M.parts theirs.old }
    ensures low_served { HaveServed S.served S.badge low.old low.new (M.taken theirs.new) }
    ensures low_back { M.out theirs.new ≡ 0 }
    ensures low_ended { 0 < M.ended theirs.new }
    ensures high_parts { M.parts mine.new ≡ M.parts mine.old }
    ensures high_served { HaveServed S.served S.badge high.old high.new (M.taken mine.new) }
    ensures high_back { M.out mine.new ≡ 0 }
    ensures high_ended { 0 < M.ended mine.new }
{
    let mut front = ||
        requires { IsSync R.row × IsSend W.row × IsSend M.row × IsSync S.row
            × CanWork S.served (M.parts theirs.now) (M.taken theirs.now) (M.out theirs.now)
            low.now }
        ensures parts { M.parts theirs.exit.now ≡ M.parts theirs.entry.now }
        ensures served { HaveServed S.served S.badge low.entry.now low.exit.now
            (M.taken theirs.exit.now) }
        ensures all_back { M.out theirs.exit.now ≡ 0 }
        ensures ended { 0 < M.ended theirs.exit.now }
    { work_all(rt, shop, theirs, low) };
    let mut back = ||
        requires { IsSync R.row × IsSend W.row × IsSend M.row × IsSync S.row
            × CanWork S.served (M.parts mine.now) (M.taken mine.now) (M.out mine.now)
            high.now }
        ensures parts { M.parts mine.exit.now ≡ M.parts mine.entry.now }
        ensures served { HaveServed S.served S.badge high.entry.now high.exit.now
            (M.taken mine.exit.now) }
        ensures all_back { M.out mine.exit.now ≡ 0 }
        ensures ended { 0 < M.ended mine.exit.now }
    { work_all(rt, shop, mine, high) };
    join_mut(rt, &mut front, &mut back);
}
