//! The turnstile and its passes.
ghost use Rattle.std.specs.Prelude.{◌≡◌, [], ◌∷◌, IfOk, IfErr, length};
ghost use Rattle.turnstile.specs.Histories.{Begins};
ghost use Rattle.turnstile.specs.Passes.{IsIdleAt, IsSound, IsSamePass, opening_pass};
ghost use Rattle.turnstile.specs.declared.view.Place.TheVariants.{Full};

use crate::history::Historied;
use crate::line::WORDS;
use crate::plays::{Chair, Walls};
use crate::steps::sight;
use crate::view::Place;
use atomic_table::{Refused, Table};
use std::alloc::{AllocFailed, Global};
use std::marker::Model;
use std::snapshot::Snapshot;

/// A value on which passes take turns. It is shared by reference, and has to be
/// closed in the end.
pub struct Turnstile<V: Historied> {
    pub(crate) table: Walls<V>,
}

impl<V: Historied> Model for Turnstile<V> {
    ghost use Rattle.std.specs.Prelude.{◌≡◌};
    ghost use Rattle.atomic_table.specs.Seated.{TableId, table_id_coded};
    ghost use Rattle.turnstile.specs.Seats.{IsGate};

    ghost Value = { TableId };

    ghost coded = { table_id_coded };

    ghost view = { λ t. t.table.shared.table_id };

    ghost invariant = { λ t. IsGate t.table.shared.table_id };
}

/// A caller's token, which goes with one thread at a time. It takes turns under one number.
/// A pass that is dropped was never retired, so its turnstile cannot be closed any more.
#[derive(Drop)]
pub struct Pass<V: Historied> {
    pub(crate) seat: Chair<V>,
    pub(crate) number: u8,
    /// Of pass 0: how many passes there have been.
    pub(crate) made: u8,
}

impl<V: Historied> Model for Pass<V> {
    ghost use Rattle.turnstile.specs.Passes.{PassView, pass_view, IsKept};

    ghost Value = { PassView };

    ghost view = { λ p. pass_view p.seat.table_id p.number p.seat.me.0 };

    ghost invariant = { λ p. IsKept V.law p.seat.table_id p.number p.made p.seat.me.0 p.seat.me.1 };
}

fn only<V>(mut slots: Vec<Place<V>>) -> V
    requires { (x : V) × (slots.items ≡ Full x ∷ []) }
    ensures { slots.items ≡ Full result ∷ [] }
{
    let place = slots.pop().unwrap();
    slots.destroy_empty();
    place.into_value()
}

impl<V: Historied> Turnstile<V> {
    /// The turnstile round a value with no entry yet, and its pass 0. Where there is no memory, the
    /// value comes back.
    pub fn new(alloc: Global, value: V) -> Result<(Turnstile<V>, Pass<V>), V>
        requires { V.entries value ≡ [] }
        ensures ok { IfOk result (λ r. r.1 ≡ opening_pass r.0 (V.basis value)) }
        ensures sound { IfOk result (λ r. IsSound V.law r.1) }
        ensures err { IfErr result (λ v. v ≡ value) }
    {
        // By this call the value shows that the empty history is lawful on its basis.
        let _filed = value.filed();
        let key = Snapshot::of(&value);
        let mut slots = Vec::new(alloc);
        if let Err(AllocFailed { value: place }) = slots.push(Place::Full(value)) {
            slots.destroy_empty();
            return Err(place.into_value());
        }
        match Table::new(alloc, &[0; WORDS], slots, &key) {
            Ok((table, seat)) => {
                let pass = Pass {
                    seat,
                    number: 0,
                    made: 1,
                };
                Ok((Turnstile { table }, pass))
            }
            Err(Refused { slots }) => Err(only(slots)),
        }
    }

    /// How many entries the history has by now, all of which the pass has then seen. It waits for
    /// nobody.
    pub fn front(&self, pass: &mut Pass<V>) -> u32
        requires idle { IsIdleAt self.now pass.old }
        ensures count { result ≡ length pass.new.seen }
        ensures seen { Begins pass.old.seen pass.new.seen }
        ensures sound { IsSound V.law pass.new }
        ensures same { IsSamePass pass.old pass.new × (pass.new.mine ≡ pass.old.mine) }
        ensures idle { IsIdleAt self.now pass.new }
    {
        sight(&self.table.shared, &mut pass.seat)
    }
}

impl<V: Historied> Pass<V> {
    /// Under this number its calls stand in the history. What it has seen is lawful, also where it
    /// takes no turn.
    pub fn number(&self) -> u8
        ensures number { result ≡ self.now.number }
        ensures sound { IsSound V.law self.now }
    {
        self.number
    }
}
