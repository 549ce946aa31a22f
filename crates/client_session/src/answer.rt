ghost use Rattle.std.specs.Prelude.{◌≡◌, ◌≢◌, ◌+◌, ℕ, List, []};
ghost use Rattle.srv_edge.specs.declared.kind.TheConstants as kinds;
ghost use Rattle.srv_edge.specs.Frames.{IsHead, frame_bytes};
ghost use Rattle.request_frames.specs.Lists.{IsRecordList};
ghost use Rattle.request_frames.specs.Requests.{IsAsked, asked, commit};
ghost use Rattle.request_frames.specs.Talk.{PutsReply};
ghost use Rattle.type_store.specs.Views.{tables_in};
ghost use Rattle.client_session.specs.Tables.{Adds, AddsList, AnswersAlone, kind_of_list};

use crate::replies::{
    no_item, no_name, no_type, part_for, write_bytes, write_counts, write_hello, write_index,
    write_reply,
};
use leaf_grammar::Space;
use request_frames::{Head, Request, next_record, push_part};
use srv_edge::{Piece, Refusal, kind};
use table_model::{add_name, add_record};
use type_store::Tables;

/// Puts the reply of tables to a request that is no commit into an empty piece.
pub(crate) fn answer_by_tables(tables: &mut Tables, head: Head, request: &Request, out: &mut Piece)
    requires head { IsHead head }
    requires asked { IsAsked head.version (asked request.now) }
    requires no_commit { asked request.now ≢ commit }
    requires empty { out.old ≡ [] }
    ensures { PutsReply AnswersAlone head
        (tables_in tables.old) (asked request.now) out.new (tables_in tables.new) }
{
    match *request {
        Request::Hello(version) => write_hello(head, version, out),
        Request::AddType(bytes) => {
            write_index(head, kind::ADD_TYPE, add(tables, Space::Types, bytes), out);
        }
        Request::AddItem(bytes) => {
            write_index(head, kind::ADD_ITEM, add(tables, Space::Items, bytes), out);
        }
        Request::AddName(name) => {
            write_index(head, kind::ADD_NAME, add_name(&mut tables.names, name), out);
        }
        Request::GetType(index) => {
            let found = tables.types.get(index);
            write_bytes(head, kind::GET_TYPE, found, no_type(index), out);
        }
        Request::GetItem(index) => {
            let found = tables.items.get(index);
            write_bytes(head, kind::GET_ITEM, found, no_item(index), out);
        }
        Request::GetName(offset) => {
            let found = tables.names.get(offset);
            write_bytes(head, kind::GET_NAME, found, no_name(offset), out);
        }
        Request::Commit => unreachable!(),
        Request::Counts => {
            let names = tables.names.len();
            write_counts(head, tables.types.len(), tables.items.len(), names, out);
        }
        Request::Bye => write_reply(head, kind::BYE, &[], out),
        Request::AddTypes(list) => add_list(tables, head, Space::Types, list, out),
        Request::AddItems(list) => add_list(tables, head, Space::Items, list, out),
    }
}

// Adds a record to the table of its space.
fn add(tables: &mut Tables, space: Space, bytes: &[u8]) -> Result<u32, Refusal>
    ensures { Adds space (tables_in tables.old) bytes.now result (tables_in tables.new) }
{
    let types = tables.types.len();
    let items = tables.items.len();
    match space {
        Space::Types => add_record(space, &mut tables.types, types, items, bytes),
        Space::Items => add_record(space, &mut tables.items, types, items, bytes),
    }
}

// Adds the records of a list one after another, and replies with the part of each.
fn add_list(tables: &mut Tables, head: Head, space: Space, list: &[u8], out: &mut Piece)
    requires list { IsRecordList list.now }
    requires empty { out.old ≡ [] }
    ensures { (parts : List ℕ)
        × (out.new ≡ frame_bytes (record {
          head = head;
          message = record { kind = kind_of_list space + kinds.REPLY; body = parts };
        }))
        × AddsList space (tables_in tables.old) list.now parts (tables_in tables.new) }
{
    write_reply(head, list_kind(space), &[], out);
    let mut at = 0;
    while let Some(record) = next_record(list, at) {
        let part = part_for(add(tables, space, record));
        push_part(&part, out);
        at += record.len();
    }
}

// The kind of a request to add a list of records of a space.
pub(crate) fn list_kind(space: Space) -> u8
    ensures { result ≡ kind_of_list space }
{
    match space {
        Space::Types => kind::ADD_TYPES,
        Space::Items => kind::ADD_ITEMS,
    }
}
