ghost use Rattle.std.specs.Prelude.{◌≡◌, ◌≤◌, ◌+◌, [], length};
ghost use Rattle.hub.specs.Calls.{Gives, answer_of_get, get_of};
ghost use Rattle.hub.specs.Ends.{AreEnded};
ghost use Rattle.request_frames.specs.Requests.{IsAsked, asked};
ghost use Rattle.request_frames.specs.Talk.{PutsReply};
ghost use Rattle.srv_edge.specs.declared.kind.TheConstants as kinds;
ghost use Rattle.srv_edge.specs.declared.piece.TheConstants.{PIECE_BYTES};
ghost use Rattle.srv_edge.specs.Frames.{IsHead};
ghost use Rattle.table_model.specs.Calls.{index_answer};
ghost use Rattle.table_model.specs.declared.call.Call.TheVariants as calls;
ghost use Rattle.turnstile.specs.Passes.{IsIdleAt};
ghost use Rattle.client_session.specs.Sharing.{CallsBy, PutsCall, PutsCommit, SharedWithCauses, kind_of_get};
ghost use Rattle.client_session.specs.Tables.{call_to_add};

use crate::listed::add_list;
use crate::replies::{write_counts, write_hello, write_index, write_reply};
use call_journal::TableKind;
use hub::{Hub, HubPass};
use leaf_grammar::Space;
use request_frames::{Head, Request, take_in, write_refusal};
use srv_edge::{Device, Piece, Refusal, kind};
use std::sync::Wait;

/// Puts the reply to a request into an empty piece: what its calls by a pass were answered.
pub(crate) fn answer_by_hub<D: Device>(
    hub: &Hub<D>,
    rt: &impl Wait,
    pass: &mut HubPass<D>,
    head: Head,
    request: &Request,
    out: &mut Piece,
)
    requires head { IsHead head }
    requires asked { IsAsked head.version (asked request.now) }
    requires empty { out.old ≡ [] }
    requires idle { IsIdleAt hub.now pass.old }
    requires ended { AreEnded pass.old.mine }
    ensures puts { PutsReply SharedWithCauses head pass.old (asked request.now) out.new pass.new }
    ensures idle { IsIdleAt hub.now pass.new }
    ensures ended { AreEnded pass.new.mine }
{
    match *request {
        Request::Hello(version) => write_hello(head, version, out),
        Request::AddType(bytes) => {
            let answer = add(hub, rt, pass, Space::Types, bytes);
            write_index(head, kind::ADD_TYPE, answer, out);
        }
        Request::AddItem(bytes) => {
            let answer = add(hub, rt, pass, Space::Items, bytes);
            write_index(head, kind::ADD_ITEM, answer, out);
        }
        Request::AddName(name) => {
            write_index(head, kind::ADD_NAME, hub.add_name(rt, pass, name), out);
        }
        Request::GetType(index) => get(hub, rt, pass, head, TableKind::Types, index, out),
        Request::GetItem(index) => get(hub, rt, pass, head, TableKind::Items, index, out),
        Request::GetName(offset) => get(hub, rt, pass, head, TableKind::Names, offset, out),
        Request::Commit => commit(hub, rt, pass, head, out),
        Request::Counts => count(hub, rt, pass, head, out),
        Request::Bye => write_reply(head, kind::BYE, &[], out),
        Request::AddTypes(list) => add_list(hub, rt, pass, head, Space::Types, list, out),
        Request::AddItems(list) => add_list(hub, rt, pass, head, Space::Items, list, out),
    }
}

// Adds a record to the table of its space.
pub(crate) fn add<D: Device>(
    hub: &Hub<D>,
    rt: &impl Wait,
    pass: &mut HubPass<D>,
    space: Space,
    bytes: &[u8],
) -> Result<u32, Refusal>
    requires idle { IsIdleAt hub.now pass.old }
    ensures called { CallsBy pass.old (call_to_add space bytes.now) (index_answer result)
        pass.new }
    ensures idle { IsIdleAt hub.now pass.new }
{
    match space {
        Space::Types => hub.add_type(rt, pass, bytes),
        Space::Items => hub.add_item(rt, pass, bytes),
    }
}

// Replies with what stands in a table at an index or an offset.
fn get<D: Device>(
    hub: &Hub<D>,
    rt: &impl Wait,
    pass: &mut HubPass<D>,
    head: Head,
    table: TableKind,
    at: u32,
    out: &mut Piece,
)
    requires empty { out.old ≡ [] }
    requires idle { IsIdleAt hub.now pass.old }
    ensures puts { PutsCall head (kind_of_get table + kinds.REPLY) pass.old (get_of table at)
        out.new pass.new }
    ensures idle { IsIdleAt hub.now pass.new }
{
    write_reply(head, get_kind(table), &[], out);
    match get_from(hub, rt, pass, table, at, out) {
        Ok(()) => take_in(out),
        Err(refusal) => {
            out.clear();
            write_refusal(head, &refusal, out);
        }
    }
}

// The kind of a request to get what stands in a table.
fn get_kind(table: TableKind) -> u8
    ensures { result ≡ kind_of_get table }
{
    match table {
        TableKind::Types => kind::GET_TYPE,
        TableKind::Items => kind::GET_ITEM,
        TableKind::Names => kind::GET_NAME,
    }
}

// Puts what stands in a table behind what the piece holds.
fn get_from<D: Device>(
    hub: &Hub<D>,
    rt: &impl Wait,
    pass: &mut HubPass<D>,
    table: TableKind,
    at: u32,
    out: &mut Piece,
) -> Result<(), Refusal>
    requires idle { IsIdleAt hub.now pass.old }
    requires room { length out.old + 65537 ≤ PIECE_BYTES }
    ensures called { CallsBy pass.old (get_of table at) (answer_of_get result out.old out.new)
        pass.new }
    ensures given { Gives result out.old out.new }
    ensures idle { IsIdleAt hub.now pass.new }
{
    match table {
        TableKind::Types => hub.get_type(rt, pass, at, out),
        TableKind::Items => hub.get_item(rt, pass, at, out),
        TableKind::Names => hub.get_name(rt, pass, at, out),
    }
}

// Commits the tables as they stand, and replies with the commit's number.
fn commit<D: Device>(
    hub: &Hub<D>,
    rt: &impl Wait,
    pass: &mut HubPass<D>,
    head: Head,
    out: &mut Piece,
)
    requires empty { out.old ≡ [] }
    requires idle { IsIdleAt hub.now pass.old }
    ensures puts { PutsCommit head pass.old out.new pass.new }
    ensures idle { IsIdleAt hub.now pass.new }
{
    write_index(head, kind::COMMIT, hub.commit(rt, pass), out);
}

// Replies with how many types, items and names there are.
fn count<D: Device>(
    hub: &Hub<D>,
    rt: &impl Wait,
    pass: &mut HubPass<D>,
    head: Head,
    out: &mut Piece,
)
    requires empty { out.old ≡ [] }
    requires idle { IsIdleAt hub.now pass.old }
    ensures puts { PutsCall head (kinds.COUNTS + kinds.REPLY) pass.old calls.Counts out.new
        pass.new }
    ensures idle { IsIdleAt hub.now pass.new }
{
    match hub.counts(rt, pass) {
        Ok(counts) => write_counts(head, counts.types, counts.items, counts.names, out),
        Err(refusal) => write_refusal(head, &refusal, out),
    }
}
