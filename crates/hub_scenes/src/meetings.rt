ghost use Rattle.std.specs.Prelude.{◌≤◌, ◌+◌, IfOk, length};
ghost use Rattle.hub.specs.Ends.{IsFree};
ghost use Rattle.srv_edge.specs.declared.piece.TheConstants.{PIECE_BYTES};
ghost use Rattle.turnstile.specs.Histories.{Begins};

use hub::{Hub, HubPass};
use srv_edge::{Device, Piece, Refusal};
use std::sync::Wait;

/// The one caller adds a type and gives a note, which the other meets. The other then gets what the one
/// was told, behind what the piece holds.
pub fn get_what_was_met<D: Device>(
    rt: &impl Wait,
    hub: &Hub<D>,
    one: &mut HubPass<D>,
    two: &mut HubPass<D>,
    record: &[u8],
    out: &mut Piece,
) -> Result<u32, Refusal>
    requires one { IsFree hub.now one.old }
    requires two { IsFree hub.now two.old }
    requires room { length out.old + 65537 ≤ PIECE_BYTES }
    ensures one { IsFree hub.now one.new }
    ensures two { IsFree hub.now two.new }
    ensures met { IfOk result (λ index. Begins one.new.seen two.new.seen) }
{
    let index = hub.add_type(rt, one, record)?;
    let note = hub.note(one);
    hub.meet(two, note);
    hub.get_type(rt, two, index, out)?;
    Ok(index)
}
