ghost use Rattle.std.specs.Prelude.{◌≡◌, ◌⊎◌, ◌≤◌, ◌+◌, Ok, length, IfOk, IfErr, IsOkAnd, IsErrAnd};
ghost use Rattle.core_model.specs.History.{IsLegal};
ghost use Rattle.core_model.specs.Law.{add_to};
ghost use Rattle.hub.specs.Calls.{Gives, IsAddable, IsHashFor, answer_of_get, get_of};
ghost use Rattle.hub.specs.Kept.{IsOwnOpen};
ghost use Rattle.hub.specs.Passes.{Commits, IsAnswered, IsBegunBy, IsEndedBy, IsMalformed, IsNotBegun, IsRefused, IsRefusedUnderWay};
ghost use Rattle.leaf_grammar.specs.Leaf.{leaf_of};
ghost use Rattle.leaf_grammar.specs.declared.grammar.Space.TheVariants as spaces;
ghost use Rattle.srv_edge.specs.declared.piece.TheConstants.{PIECE_BYTES};
ghost use Rattle.srv_edge.specs.Name.{IsName};
ghost use Rattle.table_model.specs.Calls.{index_answer};
ghost use Rattle.table_model.specs.declared.call.Call.TheVariants as calls;
ghost use Rattle.table_model.specs.declared.call.Outcome.TheVariants as outcomes;
ghost use Rattle.turnstile.specs.Histories.{Begins};
ghost use Rattle.turnstile.specs.Passes.{IsIdleAt, IsSamePass, IsSound};

use crate::hub::{Hub, HubPass};
use crate::turns::add_judged;
use crate::under_way::{Done, Out};
use call_journal::TableKind;
use leaf_grammar::{Space, check};
use srv_edge::{Device, Piece, Refusal};
use std::sync::Wait;
use type_hash::of_record;
use type_store::Counts;

// What an add of a name brings in place of a hash: names are found by one of their own.
const NO_HASH: u32 = 0;

impl<D: Device> Hub<D> {
    /// Adds a type. What is no leaf is refused without a turn.
    pub fn add_type(
        &self,
        rt: &impl Wait,
        pass: &mut HubPass<D>,
        bytes: &[u8],
    ) -> Result<u32, Refusal>
        requires idle { IsIdleAt self.now pass.old }
        ensures reply { IsMalformed pass.old pass.new (leaf_of spaces.Types bytes.now) result
            ⊎ (IsAnswered pass.old pass.new (calls.AddType bytes.now) (index_answer result)
            ⊎ IsRefused pass.old pass.new result) }
        ensures same { IsSamePass pass.old pass.new }
        ensures sound { IsSound IsLegal pass.new }
        ensures idle { IsIdleAt self.now pass.new }
    {
        let _number = pass.number();
        if let Err(wrong) = check(Space::Types, bytes) {
            return Err(Refusal::Malformed {
                at: wrong.at,
                what: wrong.what,
            });
        }
        self.add(rt, pass, TableKind::Types, bytes, of_record(bytes))
    }

    /// Adds an item. What is no leaf is refused without a turn.
    pub fn add_item(
        &self,
        rt: &impl Wait,
        pass: &mut HubPass<D>,
        bytes: &[u8],
    ) -> Result<u32, Refusal>
        requires idle { IsIdleAt self.now pass.old }
        ensures reply { IsMalformed pass.old pass.new (leaf_of spaces.Items bytes.now) result
            ⊎ (IsAnswered pass.old pass.new (calls.AddItem bytes.now) (index_answer result)
            ⊎ IsRefused pass.old pass.new result) }
        ensures same { IsSamePass pass.old pass.new }
        ensures sound { IsSound IsLegal pass.new }
        ensures idle { IsIdleAt self.now pass.new }
    {
        let _number = pass.number();
        if let Err(wrong) = check(Space::Items, bytes) {
            return Err(Refusal::Malformed {
                at: wrong.at,
                what: wrong.what,
            });
        }
        self.add(rt, pass, TableKind::Items, bytes, of_record(bytes))
    }

    /// Adds a name.
    pub fn add_name(
        &self,
        rt: &impl Wait,
        pass: &mut HubPass<D>,
        name: &[u8],
    ) -> Result<u32, Refusal>
        requires idle { IsIdleAt self.now pass.old }
        requires name { IsName name.now }
        ensures reply { IsAnswered pass.old pass.new (calls.AddName name.now) (index_answer result)
            ⊎ IsRefused pass.old pass.new result }
        ensures same { IsSamePass pass.old pass.new }
        ensures sound { IsSound IsLegal pass.new }
        ensures idle { IsIdleAt self.now pass.new }
    {
        self.add(rt, pass, TableKind::Names, name, NO_HASH)
    }

    /// Puts the type at an index behind what the piece holds.
    pub fn get_type(
        &self,
        rt: &impl Wait,
        pass: &mut HubPass<D>,
        index: u32,
        out: &mut Piece,
    ) -> Result<(), Refusal>
        requires idle { IsIdleAt self.now pass.old }
        requires room { length out.old + 65537 ≤ PIECE_BYTES }
        ensures reply { IsAnswered pass.old pass.new (calls.GetType index)
            (answer_of_get result out.old out.new) ⊎ IsRefused pass.old pass.new result }
        ensures given { Gives result out.old out.new }
        ensures same { IsSamePass pass.old pass.new }
        ensures sound { IsSound IsLegal pass.new }
        ensures idle { IsIdleAt self.now pass.new }
    {
        self.get(rt, pass, TableKind::Types, index, out)
    }

    /// Puts the item at an index behind what the piece holds.
    pub fn get_item(
        &self,
        rt: &impl Wait,
        pass: &mut HubPass<D>,
        index: u32,
        out: &mut Piece,
    ) -> Result<(), Refusal>
        requires idle { IsIdleAt self.now pass.old }
        requires room { length out.old + 65537 ≤ PIECE_BYTES }
        ensures reply { IsAnswered pass.old pass.new (calls.GetItem index)
            (answer_of_get result out.old out.new) ⊎ IsRefused pass.old pass.new result }
        ensures given { Gives result out.old out.new }
        ensures same { IsSamePass pass.old pass.new }
        ensures sound { IsSound IsLegal pass.new }
        ensures idle { IsIdleAt self.now pass.new }
    {
        self.get(rt, pass, TableKind::Items, index, out)
    }

    /// Puts the name at an offset behind what the piece holds.
    pub fn get_name(
        &self,
        rt: &impl Wait,
        pass: &mut HubPass<D>,
        offset: u32,
        out: &mut Piece,
    ) -> Result<(), Refusal>
        requires idle { IsIdleAt self.now pass.old }
        requires room { length out.old + 65537 ≤ PIECE_BYTES }
        ensures reply { IsAnswered pass.old pass.new (calls.GetName offset)
            (answer_of_get result out.old out.new) ⊎ IsRefused pass.old pass.new result }
        ensures given { Gives result out.old out.new }
        ensures same { IsSamePass pass.old pass.new }
        ensures sound { IsSound IsLegal pass.new }
        ensures idle { IsIdleAt self.now pass.new }
    {
        self.get(rt, pass, TableKind::Names, offset, out)
    }

    /// How many types, items and names there are.
    pub fn counts(&self, rt: &impl Wait, pass: &mut HubPass<D>) -> Result<Counts, Refusal>
        requires idle { IsIdleAt self.now pass.old }
        ensures reply { IsOkAnd result (λ counts. IsAnswered pass.old pass.new calls.Counts
            (Ok (outcomes.Counts counts.types counts.items counts.names)))
            ⊎ IsRefused pass.old pass.new result }
        ensures same { IsSamePass pass.old pass.new }
        ensures sound { IsSound IsLegal pass.new }
        ensures idle { IsIdleAt self.now pass.new }
    {
        let caller = pass.number();
        let mut turn = self.gate.take_turn(rt, pass);
        match turn.value().state.counts(caller) {
            Ok(counts) => {
                turn.file();
                turn.leave();
                Ok(counts)
            }
            Err(refusal) => {
                turn.leave();
                Err(refusal)
            }
        }
    }

    // One turn, in which what was judged and hashed is added to a table.
    fn add(
        &self,
        rt: &impl Wait,
        pass: &mut HubPass<D>,
        kind: TableKind,
        bytes: &[u8],
        hash: u32,
    ) -> Result<u32, Refusal>
        requires idle { IsIdleAt self.now pass.old }
        requires judged { IsAddable kind bytes.now }
        requires hash { IsHashFor kind bytes.now hash }
        ensures reply { IsAnswered pass.old pass.new (add_to kind bytes.now) (index_answer result)
            ⊎ IsRefused pass.old pass.new result }
        ensures same { IsSamePass pass.old pass.new }
        ensures sound { IsSound IsLegal pass.new }
        ensures idle { IsIdleAt self.now pass.new }
    {
        let mut turn = self.take_turn(rt, pass);
        let reply = add_judged(&mut turn, kind, bytes, hash);
        turn.leave();
        reply
    }

    // One turn, in which what stands in a table is put behind what the piece holds.
    fn get(
        &self,
        rt: &impl Wait,
        pass: &mut HubPass<D>,
        kind: TableKind,
        at: u32,
        out: &mut Piece,
    ) -> Result<(), Refusal>
        requires idle { IsIdleAt self.now pass.old }
        requires room { length out.old + 65537 ≤ PIECE_BYTES }
        ensures reply { IsAnswered pass.old pass.new (get_of kind at)
            (answer_of_get result out.old out.new) ⊎ IsRefused pass.old pass.new result }
        ensures given { Gives result out.old out.new }
        ensures same { IsSamePass pass.old pass.new }
        ensures sound { IsSound IsLegal pass.new }
        ensures idle { IsIdleAt self.now pass.new }
    {
        let caller = pass.number();
        let mut turn = self.gate.take_turn(rt, pass);
        match turn.value().state.get(caller, kind, at, out) {
            Ok(reply) => {
                turn.file();
                turn.leave();
                reply
            }
            Err(refusal) => {
                turn.leave();
                Err(refusal)
            }
        }
    }
}
