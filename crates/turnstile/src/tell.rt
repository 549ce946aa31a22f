//! What passes tell one another: new passes, notes, passes that end, and the end of the turnstile.
ghost use Rattle.std.specs.Prelude.{◌≡◌, ◌≢◌, ℕ, ◌+◌, ◌<◌, [], ◌∷◌, ◌++◌, length};
ghost use mathlib.Core.Option.{some};
ghost use lib.ListN.{get_elem?};
ghost use Rattle.turnstile.specs.Histories.{Begins, calls_by};
ghost use Rattle.turnstile.specs.Passes.{IsIdleAt, IsSamePass, IsSound, one_more, new_pass, note_of};
ghost use Rattle.turnstile.specs.Views.{times};
ghost use Rattle.turnstile.specs.declared.view.Ended.{Ended};

use crate::history::Historied;
use crate::pass::{Pass, Turnstile};
use crate::plays::{Chair, Fork, Meet, Retire, Write};
use crate::steps::sight;
use std::marker::Model;

/// What a pass had seen, for another pass to take in.
#[derive(Drop)]
pub struct Note<V: Historied> {
    seat: Chair<V>,
}

impl<V: Historied> Model for Note<V> {
    ghost use Rattle.turnstile.specs.Passes.{NoteView, note_view, IsNoted};

    ghost Value = { NoteView };

    ghost view = { λ n. note_view n.seat.table_id n.seat.me.0 };

    ghost invariant = { λ n. IsNoted n.seat.me.0 n.seat.me.1 };
}

impl<V: Historied> Turnstile<V> {
    /// Pass 0 makes another pass, of the next number.
    pub fn split(&self, first: &mut Pass<V>) -> Pass<V>
        requires idle { IsIdleAt self.now first.old }
        requires first { first.old.number ≡ 0 }
        requires room { first.old.made < 255 }
        ensures first { first.new ≡ one_more first.old }
        ensures new { result ≡ new_pass first.old }
        ensures sound { IsSound V.law first.new × IsSound V.law result }
    {
        let number = first.made;
        let seat = self.table.shared.split_seat::<Fork>(&mut first.seat);
        first.made += 1;
        Pass {
            seat,
            number,
            made: 0,
        }
    }

    /// A note of what the pass has seen.
    pub fn note(&self, pass: &mut Pass<V>) -> Note<V>
        requires idle { IsIdleAt self.now pass.old }
        ensures same { pass.new ≡ pass.old }
        ensures sound { IsSound V.law pass.new }
        ensures note { result ≡ note_of pass.old }
    {
        Note {
            seat: self.table.shared.split_seat::<Write>(&mut pass.seat),
        }
    }

    /// The pass sees the whole history, and with it all that the note's giver had seen.
    pub fn meet(&self, pass: &mut Pass<V>, note: Note<V>)
        requires idle { IsIdleAt self.now pass.old }
        requires note { note.turnstile ≡ self.now }
        ensures seen { Begins pass.old.seen pass.new.seen }
        ensures met { Begins note.seen pass.new.seen }
        ensures sound { IsSound V.law pass.new }
        ensures same { IsSamePass pass.old pass.new × (pass.new.mine ≡ pass.old.mine) }
        ensures idle { IsIdleAt self.now pass.new }
    {
        let Note { seat } = note;
        self.table.shared.join_seat::<Meet>(&mut pass.seat, seat);
        sight(&self.table.shared, &mut pass.seat);
    }

    /// Pass 0 takes in another pass, whose calls it keeps.
    pub fn retire(&self, first: &mut Pass<V>, ended: Pass<V>)
        requires idle { IsIdleAt self.now first.old }
        requires first { first.old.number ≡ 0 }
        requires ended { IsIdleAt self.now ended }
        ensures seen { Begins first.old.seen first.new.seen }
        ensures met { Begins ended.seen first.new.seen }
        ensures sound { IsSound V.law first.new }
        ensures ended { first.new
            ≡ record first.old {
              seen = first.new.seen;
              ended = first.old.ended
                  ++ record { number = ended.number; calls = ended.mine } ∷ [];
            } }
        ensures idle { IsIdleAt self.now first.new }
    {
        let Pass {
            seat,
            number: _,
            made: _,
        } = ended;
        self.table.shared.join_seat::<Retire>(&mut first.seat, seat);
        sight(&self.table.shared, &mut first.seat);
    }

    /// The end: pass 0 has retired every other pass, so all calls are its own and theirs.
    pub fn close(self, first: Pass<V>) -> V
        requires idle { IsIdleAt self first }
        requires first { first.number ≡ 0 }
        requires retired { length first.ended + 1 ≡ first.made }
        ensures basis { V.basis result ≡ first.basis }
        ensures seen { Begins first.seen (V.entries result) }
        ensures lawful { V.law (V.basis result) (V.entries result) }
        ensures mine { calls_by 0 (V.entries result) ≡ first.mine }
        ensures ended { (k : ℕ) (e : Ended) → get_elem? first.ended k ≡ some e
            → calls_by e.number (V.entries result) ≡ e.calls }
        ensures others { (n : ℕ) → n ≢ 0 → times n first.ended ≡ 0
            → calls_by n (V.entries result) ≡ [] }
    {
        let Pass {
            seat,
            number: _,
            made: _,
        } = first;
        let Turnstile { table } = self;
        let mut closed = table.close_with(seat);
        let place = closed.take(0);
        closed.free();
        place.into_value()
    }
}
