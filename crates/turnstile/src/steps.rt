//! The steps of a pass beside its waiting, over its seat alone.
ghost use Rattle.std.specs.Prelude.{◌≡◌, ℕ, ◌+◌, List, [], ◌∷◌, ◌++◌, length};
ghost use Rattle.turnstile.specs.Histories.{caller};
ghost use Rattle.turnstile.specs.Seats.{IsAt, IsSameSeat};
ghost use Rattle.turnstile.specs.Steps.{Sights};
ghost use Rattle.turnstile.specs.Views.{saw, staged, filed};
ghost use Rattle.turnstile.specs.declared.history.Entry.{Entry};
ghost use Rattle.turnstile.specs.declared.view.Place.TheVariants.{Empty};
ghost use Rattle.turnstile.specs.declared.view.Role.TheVariants.{Caller};
ghost use Rattle.turnstile.specs.declared.view.Stage.TheVariants.{Idle, Loaded};

use crate::history::Historied;
use crate::line::{FRONT, SERVING, call_next, stand};
use crate::plays::{Chair, File, Front, Gate, Leave, Take};
use crate::view::Place;
use std::snapshot::Snapshot;
use std::sync::Wait;

/// In no turn: sees the whole history.
pub fn sight<V: Historied>(gate: &Gate<V>, chair: &mut Chair<V>) -> u32
    requires table { IsAt gate.now.table_id chair.old }
    requires idle { chair.old.me.0.stage ≡ Idle }
    requires pass { (n : ℕ) × (chair.old.me.0.role ≡ Caller n) }
    ensures seat { IsSameSeat chair.old chair.new }
    ensures sights { (log : List Entry) × Sights V.law chair.old.me.0 result log
        × (chair.new.me ≡ (saw log chair.old.me.0, chair.old.me.1)) }
{
    gate.load::<Front>(chair, FRONT) as u32
}

/// Waits for a turn and takes the value.
pub fn claim<V: Historied>(rt: &impl Wait, gate: &Gate<V>, chair: &mut Chair<V>) -> V
    requires table { IsAt gate.now.table_id chair.old }
    requires idle { (chair.old.me.0.stage ≡ Idle) × (chair.old.me.1 ≡ []) }
    requires pass { (n : ℕ) × (chair.old.me.0.role ≡ Caller n) }
    ensures seat { IsSameSeat chair.old chair.new }
    ensures basis { V.basis result ≡ chair.old.me.0.basis }
    ensures sights { (n : ℕ) × (t : ℕ) × Sights V.law chair.old.me.0 n (V.entries result)
        × (chair.new.me
        ≡ (staged (Loaded t) (saw (V.entries result) chair.old.me.0), (0, Empty) ∷ [])) }
{
    stand(rt, gate, chair);
    gate.load::<Take>(chair, FRONT);
    gate.exchange(chair, 0, Place::Empty).into_value()
}

/// Files the one entry that the value has and the history has not.
pub fn announce<V: Historied>(gate: &Gate<V>, chair: &mut Chair<V>, value: &V)
    requires table { IsAt gate.now.table_id chair.old }
    requires loaded { (t : ℕ) × (chair.old.me.0.stage ≡ Loaded t) }
    requires basis { V.basis value.now ≡ chair.old.me.0.basis }
    requires entry { (n : ℕ) × (e : Entry) × (chair.old.me.0.role ≡ Caller n)
        × (V.entries value.now ≡ chair.old.me.0.seen ++ e ∷ []) × (caller e ≡ n) }
    ensures seat { IsSameSeat chair.old chair.new }
    ensures lawful { V.law (V.basis value.now) (V.entries value.now) }
    ensures filed { (e : Entry) → V.entries value.now ≡ chair.old.me.0.seen ++ e ∷ []
        → chair.new.me ≡ (filed e chair.old.me.0, chair.old.me.1) }
{
    // Only the pass in its turn writes this word, so the exchange is made. It shows the value to
    // the proof, which an addition could not.
    let count = u64::from(value.filed());
    let said = Place::Shown(Snapshot::of(value));
    gate.compare_exchange_with::<File>(chair, FRONT, count - 1, count, &said);
    said.let_go();
}

/// Gives the value back and wakes a pass that sleeps.
pub fn hand_back<V: Historied>(gate: &Gate<V>, chair: &mut Chair<V>, value: V)
    requires table { IsAt gate.now.table_id chair.old }
    requires loaded { ((t : ℕ) × (chair.old.me.0.stage ≡ Loaded t))
        × (chair.old.me.1 ≡ (0, Empty) ∷ []) }
    requires pass { (n : ℕ) × (chair.old.me.0.role ≡ Caller n) }
    requires basis { V.basis value ≡ chair.old.me.0.basis }
    requires history { V.entries value ≡ chair.old.me.0.seen }
    ensures seat { IsSameSeat chair.old chair.new }
    ensures idle { chair.new.me ≡ (staged Idle chair.old.me.0, []) }
{
    gate.exchange(chair, 0, Place::Full(value)).let_go();
    gate.fetch_add::<Leave>(chair, SERVING, 1);
    call_next(gate, chair);
}
