//! Turns: the value in the hands of one pass.
ghost use Rattle.std.specs.Prelude.{◌≡◌, [], ◌∷◌, ◌++◌};
ghost use Rattle.turnstile.specs.Histories.{Begins, caller};
ghost use Rattle.turnstile.specs.Passes.{IsIdleAt, IsSamePass, IsSound};
ghost use Rattle.turnstile.specs.declared.history.Entry.{Entry};

use crate::history::Historied;
use crate::pass::{Pass, Turnstile};
use crate::steps::{announce, claim, hand_back};
use std::sync::Wait;

/// The value, until the turn is left. It has to be left: no turn can be let go.
pub struct Turn<'a, V: Historied> {
    gate: &'a Turnstile<V>,
    pass: &'a mut Pass<V>,
    value: V,
}

impl<V: Historied> Turnstile<V> {
    ghost use Rattle.turnstile.specs.Turns.{value_of, pass_of, borrow_of, gate_of, IsOpen};

    /// Waits until the value is the pass's. What the pass has seen then is the value's whole
    /// history.
    pub fn take_turn<'a>(&'a self, rt: &impl Wait, pass: &'a mut Pass<V>) -> Turn<'a, V>
        requires idle { IsIdleAt self.now pass.old }
        ensures borrow { borrow_of result ≡ pass.entry.ghost_name }
        ensures open { IsOpen result × (gate_of result ≡ self.entry.now) }
        ensures basis { V.basis (value_of result) ≡ (pass_of result).basis }
        ensures history { V.entries (value_of result) ≡ (pass_of result).seen }
        ensures seen { Begins pass.entry.now.seen (pass_of result).seen }
        ensures sound { IsSound V.law (pass_of result) }
        ensures same { IsSamePass pass.entry.now (pass_of result)
            × ((pass_of result).mine ≡ pass.entry.now.mine) }
    {
        let value = claim(rt, &self.table.shared, &mut pass.seat);
        Turn {
            gate: self,
            pass,
            value,
        }
    }
}

impl<'a, V: Historied> Turn<'a, V> {
    ghost use Rattle.std.specs.Borrow.{Lends, sem};
    ghost use mir.Syntax.{named};
    ghost use Rattle.turnstile.specs.contracts.turn.Turn.{the_row};
    ghost use Rattle.turnstile.specs.Turns.{value_of, pass_of, gate_of, with_value, IsOpen, IsSameTurn};

    /// The value, to read and to change.
    pub fn value(&mut self) -> &mut V
        ensures* writes_back { sem 𝓛
            (Lends (the_row (record { mir = named 0; lft = [] }) V.row V.Historied) V.row self.entry
            result (with_value self.old)) }
        ensures value { result.now ≡ value_of self.old }
    {
        &mut self.value
    }

    /// The number of the pass whose turn it is.
    pub fn number(&self) -> u8
        ensures { result ≡ (pass_of self.now).number }
    {
        let pass = &*self.pass;
        pass.number
    }

    /// Makes the value's newest entry a part of the history, as a call of this pass.
    pub fn file(&mut self)
        requires open { IsOpen self.old }
        requires basis { V.basis (value_of self.old) ≡ (pass_of self.old).basis }
        requires entry { (e : Entry)
            × (V.entries (value_of self.old) ≡ (pass_of self.old).seen ++ e ∷ [])
            × (caller e ≡ (pass_of self.old).number) }
        ensures open { IsOpen self.new × IsSameTurn self.old self.new }
        ensures value { value_of self.new ≡ value_of self.old }
        ensures seen { (pass_of self.new).seen ≡ V.entries (value_of self.old) }
        ensures mine { (e : Entry)
            → V.entries (value_of self.old) ≡ (pass_of self.old).seen ++ e ∷ []
            → (pass_of self.new).mine ≡ (pass_of self.old).mine ++ e ∷ [] }
        ensures sound { IsSound V.law (pass_of self.new) }
        ensures same { IsSamePass (pass_of self.old) (pass_of self.new) }
    {
        let gate = self.gate;
        let pass = &mut *self.pass;
        announce(&gate.table.shared, &mut pass.seat, &self.value);
    }

    /// Ends the turn and wakes one of the passes that sleep, if any does.
    pub fn leave(self)
        requires open { IsOpen self }
        requires basis { V.basis (value_of self) ≡ (pass_of self).basis }
        requires filed { V.entries (value_of self) ≡ (pass_of self).seen }
        ensures idle { IsIdleAt (gate_of self.entry) self.exit.1.0.now }
        ensures same { IsSamePass (pass_of self.entry) self.exit.1.0.now }
        ensures seen { (self.exit.1.0.now.seen ≡ (pass_of self.entry).seen)
            × (self.exit.1.0.now.mine ≡ (pass_of self.entry).mine) }
        ensures sound { IsSound V.law self.exit.1.0.now }
    {
        let Turn { gate, pass, value } = self;
        hand_back(&gate.table.shared, &mut pass.seat, value);
    }
}
