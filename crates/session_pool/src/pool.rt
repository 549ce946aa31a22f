ghost use Rattle.std.specs.Prelude.{◌≡◌, ◌≤◌, ◌<◌, ◌+◌, ◌⊎◌, ◌^◌, false, true, All, IsTrue, map, sum_by, vec_len};
ghost use Rattle.srv_edge.specs.Count.{Rose};

use crate::gate::{Gate, Shift};
use crate::halves::work_all;
use crate::marks::Marks;
use crate::shop::Lobby;
use crate::work::Work;
use srv_edge::Door;
use std::marker::{Brand, PhantomData};
use std::sync::ledger::{Blank, Ledger};
use std::sync::{Mutex, Wait};
use std::thread::Threads;

/// What a pool hands back.
#[derive(Drop)]
pub struct Pooled<O, W> {
    /// The workers, in their order.
    pub workers: Vec<W>,
    pub door: O,
    /// How many links were accepted.
    pub accepted: u32,
    /// Whether the door failed, and the work ended for it.
    pub door_failed: bool,
}

/// Serves the links of a door, up to so many, by as many workers at a time as there are. Each link
/// that was accepted is back when it returns. A worker whose thread cannot be started is run by the
/// caller. It takes no memory.
pub fn run_pool<R: Threads + Wait + Sync, O: Door + Send, W: Work<R, O::End> + Send>(
    rt: &R,
    workers: Vec<W>,
    sessions: u32,
    door: O,
) -> Pooled<O, W>
where
    O::End: Send,
    requires some { 0 < vec_len workers }
    requires served { All (λ w. W.served w < 2 ^ 62) workers.items }
    requires handed { O.handed door < 2 ^ 62 }
    requires returned { O.returned door ≤ O.handed door }
    ensures accepted { O.handed result.door ≡ O.handed door + result.accepted }
    ensures at_most { result.accepted ≤ sessions }
    ensures returned { O.returned result.door ≡ O.returned door + result.accepted }
    ensures served { sum_by W.served result.workers.items
        ≡ sum_by W.served workers.items + result.accepted }
    ensures badges { map W.badge result.workers.items ≡ map W.badge workers.items }
    ensures fewer { result.accepted < sessions
        → IsTrue (O.shut result.door) ⊎ IsTrue result.door_failed }
    ensures failed { IsTrue result.door_failed → Rose (O.faults door) (O.faults result.door) }
    ensures never_falls { O.faults door ≤ O.faults result.door }
    ensures still_shut { IsTrue (O.shut door) → IsTrue (O.shut result.door) }
{
    let parts = workers.len() as u64;
    let blanks = (Blank::new(parts), Blank::new(parts), Blank::new(parts));
    run_books::<R, O, W, Brand, Brand, Brand, Brand>(rt, workers, sessions, door, blanks)
}

// The same, with the ledgers of which the blanks are.
fn run_books<
    R: Threads + Wait + Sync,
    O: Door + Send,
    W: Work<R, O::End> + Send,
    P: Shift + Send + Sync,
    T: Ledger + Send + Sync,
    U: Ledger + Send + Sync,
    V: Ledger + Send + Sync,
>(
    rt: &R,
    mut workers: Vec<W>,
    sessions: u32,
    door: O,
    blanks: (Blank, Blank, Blank),
) -> Pooled<O, W>
where
    O::End: Send,
    requires some { 0 < vec_len workers }
    requires served { All (λ w. W.served w < 2 ^ 62) workers.items }
    requires handed { P.handed ≡ O.handed door }
    requires few { O.handed door < 2 ^ 62 }
    requires returned { P.returned ≡ O.returned door }
    requires no_more_back { O.returned door ≤ O.handed door }
    requires faults { P.faults ≡ O.faults door }
    requires shut { P.shut ≡ O.shut door }
    requires wanted { P.wanted ≡ sessions }
    requires taken { (blanks.0.name ≡ T.name) × (blanks.0.parts ≡ T.parts)
        × (T.parts ≡ vec_len workers) }
    requires out { (blanks.1.name ≡ U.name) × (blanks.1.parts ≡ U.parts)
        × (U.parts ≡ vec_len workers) }
    requires ended { (blanks.2.name ≡ V.name) × (blanks.2.parts ≡ V.parts)
        × (V.parts ≡ vec_len workers) }
    ensures accepted { O.handed result.door ≡ O.handed door + result.accepted }
    ensures at_most { result.accepted ≤ sessions }
    ensures returned { O.returned result.door ≡ O.returned door + result.accepted }
    ensures served { sum_by W.served result.workers.items
        ≡ sum_by W.served workers.items + result.accepted }
    ensures badges { map W.badge result.workers.items ≡ map W.badge workers.items }
    ensures fewer { result.accepted < sessions → result.door_failed ≡ false
        → O.shut result.door ≡ true }
    ensures failed { result.door_failed ≡ true → Rose (O.faults door) (O.faults result.door) }
    ensures never_falls { O.faults door ≤ O.faults result.door }
    ensures still_shut { O.shut door ≡ true → O.shut result.door ≡ true }
{
    let (taken, taken_marks) = blanks.0.open::<T>();
    let (out, out_marks) = blanks.1.open::<U>();
    let (ended, ended_marks) = blanks.2.open::<V>();
    let gate: Mutex<Gate<O, P, T, U, V>> = Mutex::new(Gate {
        door,
        accepted: 0,
        wanted: sessions,
        stopped: false,
        failed: false,
        taken,
        out,
        ended,
        of: PhantomData,
    });
    let mut marks = Marks {
        taken: taken_marks,
        out: out_marks,
        ended: ended_marks,
    };
    let lobby = Lobby { rt, gate: &gate };
    work_all(rt, &lobby, &mut marks, workers.as_mut_slice());
    let (door, accepted, door_failed) = gate.into_inner().close(&mut marks);
    Pooled {
        workers,
        door,
        accepted,
        door_failed,
    }
}
