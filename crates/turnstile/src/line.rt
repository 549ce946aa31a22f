//! Waiting for a turn: over a seat alone.
ghost use Rattle.std.specs.Prelude.{◌≡◌, ℕ, ◌%◌, ◌^◌, [], IfSome, IfNone};
ghost use Rattle.turnstile.specs.Views.{staged};
ghost use Rattle.turnstile.specs.Seats.{IsAt, IsSameSeat, IsWaiting};
ghost use Rattle.turnstile.specs.declared.view.Role.TheVariants.{Caller};
ghost use Rattle.turnstile.specs.declared.view.Stage.TheVariants.{Idle, Waiting, Served};

use crate::history::Historied;
use crate::plays::{Chair, Draw, Gate, Look, Ring};
use std::hint;
use std::sync::Wait;

/// The word with the next ticket.
pub const TICKET: usize = 0;

/// The word with the ticket that is served.
pub const SERVING: usize = 1;

/// The word with the number of entries filed.
pub const FRONT: usize = 2;

/// The bell, on which all passes sleep that wait long.
const BELL: usize = 3;

/// All words.
pub const WORDS: usize = 4;

/// What the bell reads where no pass has to be woken.
const AWAKE: u64 = 0;

/// What the bell reads where a pass sleeps, or is about to.
const ASLEEP: u64 = 1;

/// So often a pass tries before it sleeps: a short turn of another ends sooner, and a long one is
/// slept through.
const LOOKS: u32 = 64;

/// Tries until it has drawn a ticket, and waits until that is served.
pub fn stand<V: Historied>(rt: &impl Wait, gate: &Gate<V>, chair: &mut Chair<V>)
    requires table { IsAt gate.now.table_id chair.old }
    requires idle { (chair.old.me.0.stage ≡ Idle) × (chair.old.me.1 ≡ []) }
    requires alive { (n : ℕ) × (chair.old.me.0.role ≡ Caller n) }
    ensures seat { IsSameSeat chair.old chair.new }
    ensures served { (t : ℕ) × (chair.new.me ≡ (staged (Served t) chair.old.me.0, [])) }
{
    let mut looks = 0u32;
    for _ in rt.forever() {
        if let Some(ticket) = draw(gate, chair) {
            return wait(rt, gate, chair, ticket);
        }
        pause(rt, gate, chair, looks);
        looks = looks.saturating_add(1);
    }
    unreachable!()
}

/// Draws the ticket that is served, if no ticket is out. It looks before it tries, since a try takes
/// the words from the one whose turn it is.
fn draw<V: Historied>(gate: &Gate<V>, chair: &mut Chair<V>) -> Option<u64>
    requires table { IsAt gate.now.table_id chair.old }
    requires idle { (chair.old.me.0.stage ≡ Idle) × (chair.old.me.1 ≡ []) }
    requires alive { (n : ℕ) × (chair.old.me.0.role ≡ Caller n) }
    ensures seat { IsSameSeat chair.old chair.new }
    ensures drawn { IfSome result (λ ticket. (t : ℕ) × (ticket ≡ t % 2 ^ 64)
        × (chair.new.me ≡ (staged (Waiting t) chair.old.me.0, []))) }
    ensures same { IfNone result (chair.new.me ≡ chair.old.me) }
{
    let served = gate.peek(SERVING);
    if gate.peek(TICKET) != served {
        return None;
    }
    let next = served.wrapping_add(1);
    if gate.compare_exchange::<Draw>(chair, TICKET, served, next) == served {
        Some(served)
    } else {
        None
    }
}

/// Looks until the ticket is served: at once, as a rule.
fn wait<V: Historied>(rt: &impl Wait, gate: &Gate<V>, chair: &mut Chair<V>, ticket: u64)
    requires table { IsAt gate.now.table_id chair.old }
    requires waiting { IsWaiting ticket chair.old.me }
    ensures seat { IsSameSeat chair.old chair.new }
    ensures served { (t : ℕ) × (chair.new.me ≡ (staged (Served t) chair.old.me.0, [])) }
{
    for _ in rt.forever() {
        if gate.load::<Look>(chair, SERVING) == ticket {
            return;
        }
        hint::spin_loop();
    }
    unreachable!()
}

/// Between two tries: at first next to nothing, then the pass sleeps.
fn pause<V: Historied>(rt: &impl Wait, gate: &Gate<V>, chair: &mut Chair<V>, looks: u32)
    requires table { IsAt gate.now.table_id chair.old }
    ensures seat { IsSameSeat chair.old chair.new }
    ensures same { chair.new.me ≡ chair.old.me }
{
    if looks < LOOKS {
        hint::spin_loop();
    } else {
        sleep(rt, gate, chair);
    }
}

/// Sleeps on the bell, unless nobody is in a turn once the bell says so. Others may still sleep on
/// it afterwards, so it is set again for whoever leaves next.
fn sleep<V: Historied>(rt: &impl Wait, gate: &Gate<V>, chair: &mut Chair<V>)
    requires table { IsAt gate.now.table_id chair.old }
    ensures seat { IsSameSeat chair.old chair.new }
    ensures same { chair.new.me ≡ chair.old.me }
{
    gate.store::<Ring>(chair, BELL, ASLEEP);
    if gate.peek(TICKET) != gate.peek(SERVING) {
        gate.park(rt, BELL, ASLEEP as u32);
        gate.store::<Ring>(chair, BELL, ASLEEP);
    }
}

/// Wakes one of the passes that sleep, if any does.
pub fn call_next<V: Historied>(gate: &Gate<V>, chair: &mut Chair<V>)
    requires table { IsAt gate.now.table_id chair.old }
    ensures seat { IsSameSeat chair.old chair.new }
    ensures same { chair.new.me ≡ chair.old.me }
{
    if gate.peek(BELL) != AWAKE {
        gate.store::<Ring>(chair, BELL, AWAKE);
        gate.wake_one(BELL);
    }
}
