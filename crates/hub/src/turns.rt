ghost use Rattle.std.specs.Prelude.{◌≡◌, ◌⊎◌, IsOk};
ghost use Rattle.core_model.specs.Law.{add_to};
ghost use Rattle.hub.specs.Calls.{IsAddable, IsHashFor};
ghost use Rattle.hub.specs.Passes.{IsAnswered, IsRefused};
ghost use Rattle.hub.specs.Turns.{IsAhead, IsInTurn, pass_in, table_of};
ghost use Rattle.leaf_grammar.specs.Leaf.{leaf_of};
ghost use Rattle.table_model.specs.Calls.{index_answer};
ghost use Rattle.turnstile.specs.Passes.{IsIdleAt, IsSamePass};
ghost use Rattle.turnstile.specs.Turns.{IsSameTurn, borrow_of, gate_of};

use crate::hub::{Hub, HubPass};
use crate::value::HubValue;
use call_journal::TableKind;
use leaf_grammar::Space;
use srv_edge::{Device, Refusal};
use std::sync::Wait;
use turnstile::Turn;
use type_hash::of_record;

/// A turn at a hub. It has to be left.
pub type HubTurn<'a, D> = Turn<'a, HubValue<D>>;

impl<D: Device> Hub<D> {
    /// Waits for a turn, in which several leaves may be added. Others wait until it is left.
    pub fn take_turn<'a>(&'a self, rt: &impl Wait, pass: &'a mut HubPass<D>) -> HubTurn<'a, D>
        requires idle { IsIdleAt self.now pass.old }
        ensures borrow { borrow_of result ≡ pass.entry.ghost_name }
        ensures gate { gate_of result ≡ self.entry.now }
        ensures turn { IsInTurn result }
        ensures ahead { IsAhead pass.entry.now (pass_in result) }
    {
        self.gate.take_turn(rt, pass)
    }
}

/// Adds a record that was judged to be a leaf to the table of its space.
pub fn add_leaf<D: Device>(
    turn: &mut HubTurn<D>,
    space: Space,
    bytes: &[u8],
) -> Result<u32, Refusal>
    requires turn { IsInTurn turn.old }
    requires leaf { IsOk (leaf_of space bytes.now) }
    ensures turn { IsInTurn turn.new × IsSameTurn turn.old turn.new }
    ensures reply { IsAnswered (pass_in turn.old) (pass_in turn.new)
        (add_to (table_of space) bytes.now) (index_answer result)
        ⊎ IsRefused (pass_in turn.old) (pass_in turn.new) result }
    ensures same { IsSamePass (pass_in turn.old) (pass_in turn.new) }
{
    add_judged(turn, table_for(space), bytes, of_record(bytes))
}

// Adds what was judged and hashed to a table.
pub(crate) fn add_judged<D: Device>(
    turn: &mut HubTurn<D>,
    kind: TableKind,
    bytes: &[u8],
    hash: u32,
) -> Result<u32, Refusal>
    requires turn { IsInTurn turn.old }
    requires judged { IsAddable kind bytes.now }
    requires hash { IsHashFor kind bytes.now hash }
    ensures turn { IsInTurn turn.new × IsSameTurn turn.old turn.new }
    ensures reply { IsAnswered (pass_in turn.old) (pass_in turn.new)
        (add_to kind bytes.now) (index_answer result)
        ⊎ IsRefused (pass_in turn.old) (pass_in turn.new) result }
    ensures same { IsSamePass (pass_in turn.old) (pass_in turn.new) }
{
    let caller = turn.number();
    match turn.value().state.add(caller, kind, bytes, hash) {
        Ok(reply) => {
            turn.file();
            reply
        }
        Err(refusal) => Err(refusal),
    }
}

// The table of a space.
fn table_for(space: Space) -> TableKind
    ensures { result ≡ table_of space }
{
    match space {
        Space::Types => TableKind::Types,
        Space::Items => TableKind::Items,
    }
}
