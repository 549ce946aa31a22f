ghost use Rattle.std.specs.Prelude.{◌≡◌, ◌≢◌, ◌+◌, ◌<◌, ℕ, Some, ◌++◌, ◌∷◌, [], length, IfOk, IfErr};
ghost use mathlib.Core.Option.{some};
ghost use lib.ListN.{get_elem?};
ghost use Rattle.core_model.specs.History.{IsLegal};
ghost use Rattle.hub.specs.Bases.{basis_of};
ghost use Rattle.hub.specs.Ends.{AreEnded, IsClosed, IsNew};
ghost use Rattle.turnstile.specs.Histories.{Begins};
ghost use Rattle.turnstile.specs.Passes.{IsIdleAt, IsSamePass, IsSound, new_pass, note_of, one_more, opening_pass};
ghost use Rattle.turnstile.specs.declared.view.Ended as view;
ghost use Rattle.type_store.specs.Files.{FileView};

use crate::book::Book;
use crate::end::Ended;
use crate::state::HubState;
use crate::value::HubValue;
use srv_edge::{Device, Limits};
use std::alloc::Global;
use std::marker::Model;
use turnstile::{Note, Pass, Turnstile};

/// A caller's token for a hub.
pub type HubPass<D> = Pass<HubValue<D>>;

/// Tables and a file that threads share. They take turns at it, each by a pass of its own, and all
/// calls have one history. It is shared by reference, and has to be closed in the end.
pub struct Hub<D: Device> {
    pub(crate) gate: Turnstile<HubValue<D>>,
}

impl<D: Device> Model for Hub<D> {
    ghost use Rattle.atomic_table.specs.Seated.{TableId, table_id_coded};

    ghost Value = { TableId };

    ghost coded = { table_id_coded };

    ghost view = { λ h. h.gate };
}

impl<D: Device> Hub<D> {
    /// A hub over a book as just opened or created, with the same limits, and its pass 0. Where
    /// there is no memory, the book comes back.
    pub fn new(
        alloc: Global,
        book: Book<D>,
        limits: Limits,
    ) -> Result<(Hub<D>, HubPass<D>), Book<D>>
        requires { (file : FileView D) × IsNew limits file book }
        ensures ok { (file : FileView D) → book.file ≡ Some file → IfOk result
            (λ r. r.1 ≡ opening_pass r.0 (basis_of D.Device limits file book.tables)) }
        ensures sound { IfOk result (λ r. IsSound IsLegal r.1) }
        ensures err { IfErr result (λ b. b ≡ book) }
    {
        let state = HubState::of_book(alloc, book, limits);
        let value = match HubValue::new(alloc, state) {
            Ok(value) => value,
            Err(state) => return Err(state.into_ended().book),
        };
        match Turnstile::new(alloc, value) {
            Ok((gate, first)) => Ok((Hub { gate }, first)),
            Err(value) => Err(value.into_state().into_ended().book),
        }
    }

    /// Pass 0 makes another pass, of the next number.
    pub fn split(&self, first: &mut HubPass<D>) -> HubPass<D>
        requires idle { IsIdleAt self.now first.old }
        requires first { first.old.number ≡ 0 }
        requires room { first.old.made < 255 }
        ensures first { first.new ≡ one_more first.old }
        ensures new { result ≡ new_pass first.old }
        ensures sound { IsSound IsLegal first.new × IsSound IsLegal result }
    {
        self.gate.split(first)
    }

    /// A note of what the pass has seen.
    pub fn note(&self, pass: &mut HubPass<D>) -> Note<HubValue<D>>
        requires idle { IsIdleAt self.now pass.old }
        ensures same { pass.new ≡ pass.old }
        ensures sound { IsSound IsLegal pass.new }
        ensures note { result ≡ note_of pass.old }
    {
        self.gate.note(pass)
    }

    /// The pass sees the whole history, and with it all that the note's giver had seen.
    pub fn meet(&self, pass: &mut HubPass<D>, note: Note<HubValue<D>>)
        requires idle { IsIdleAt self.now pass.old }
        requires note { note.turnstile ≡ self.now }
        ensures seen { Begins pass.old.seen pass.new.seen }
        ensures met { Begins note.seen pass.new.seen }
        ensures sound { IsSound IsLegal pass.new }
        ensures same { IsSamePass pass.old pass.new × (pass.new.mine ≡ pass.old.mine) }
        ensures idle { IsIdleAt self.now pass.new }
    {
        self.gate.meet(pass, note);
    }

    /// How many calls the history has by now, all of which the pass has then seen.
    pub fn calls(&self, pass: &mut HubPass<D>) -> u32
        requires idle { IsIdleAt self.now pass.old }
        ensures count { result ≡ length pass.new.seen }
        ensures seen { Begins pass.old.seen pass.new.seen }
        ensures sound { IsSound IsLegal pass.new }
        ensures same { IsSamePass pass.old pass.new × (pass.new.mine ≡ pass.old.mine) }
        ensures idle { IsIdleAt self.now pass.new }
    {
        self.gate.front(pass)
    }

    /// Pass 0 takes in another pass, whose calls it keeps.
    pub fn retire(&self, first: &mut HubPass<D>, ended: HubPass<D>)
        requires idle { IsIdleAt self.now first.old }
        requires first { first.old.number ≡ 0 }
        requires ended { IsIdleAt self.now ended }
        ensures seen { Begins first.old.seen first.new.seen }
        ensures met { Begins ended.seen first.new.seen }
        ensures sound { IsSound IsLegal first.new }
        ensures ended { first.new
            ≡ record first.old {
              seen = first.new.seen;
              ended = first.old.ended
                  ++ record { number = ended.number; calls = ended.mine } ∷ [];
            } }
        ensures idle { IsIdleAt self.now first.new }
    {
        self.gate.retire(first, ended);
    }

    /// The end: pass 0 has retired every other pass, and each commit of theirs and of its own has
    /// ended.
    pub fn close(self, first: HubPass<D>) -> Ended<D>
        requires idle { IsIdleAt self first }
        requires first { first.number ≡ 0 }
        requires retired { length first.ended + 1 ≡ first.made }
        requires ended { AreEnded first.mine }
        requires all_ended { (k : ℕ) (e : view.Ended) → get_elem? first.ended k ≡ some e
            → AreEnded e.calls }
        ensures { IsClosed D.Device first result }
    {
        let Hub { gate } = self;
        gate.close(first).into_state().into_ended()
    }
}
