//! The records of a list, added to a hub by a pass.
ghost use Rattle.std.specs.Prelude.{◌≡◌, [], IsTrue};
ghost use Rattle.request_frames.specs.Lists.{IsRecordList};
ghost use Rattle.turnstile.specs.Passes.{IsIdleAt};
ghost use Rattle.client_session.specs.Sharing.{AreLeaves, PutsParts};

use crate::answer::list_kind;
use crate::by_hub::add;
use crate::replies::{part_for, write_reply};
use hub::{Hub, HubPass, add_leaf};
use leaf_grammar::{Space, check};
use request_frames::{Head, next_record, push_part};
use srv_edge::{Device, Piece};
use std::sync::Wait;

// Adds the records of a list one after another, and replies with the part of each. They are judged
// before the pass takes a turn.
pub(crate) fn add_list<D: Device>(
    hub: &Hub<D>,
    rt: &impl Wait,
    pass: &mut HubPass<D>,
    head: Head,
    space: Space,
    list: &[u8],
    out: &mut Piece,
)
    requires list { IsRecordList list.now }
    requires empty { out.old ≡ [] }
    requires idle { IsIdleAt hub.now pass.old }
    ensures puts { PutsParts head space pass.old list.now out.new pass.new }
    ensures idle { IsIdleAt hub.now pass.new }
{
    if all_leaves(space, list) {
        add_leaves(hub, rt, pass, head, space, list, out);
    } else {
        add_each(hub, rt, pass, head, space, list, out);
    }
}

// Whether all records of a list are leaves.
fn all_leaves(space: Space, list: &[u8]) -> bool
    ensures { IsTrue result → AreLeaves space list.now }
{
    let mut at = 0;
    while let Some(record) = next_record(list, at) {
        if check(space, record).is_err() {
            return false;
        }
        at += record.len();
    }
    true
}

// Adds records that are leaves, all of them in one turn.
fn add_leaves<D: Device>(
    hub: &Hub<D>,
    rt: &impl Wait,
    pass: &mut HubPass<D>,
    head: Head,
    space: Space,
    list: &[u8],
    out: &mut Piece,
)
    requires list { IsRecordList list.now }
    requires leaves { AreLeaves space list.now }
    requires empty { out.old ≡ [] }
    requires idle { IsIdleAt hub.now pass.old }
    ensures puts { PutsParts head space pass.old list.now out.new pass.new }
    ensures idle { IsIdleAt hub.now pass.new }
{
    write_reply(head, list_kind(space), &[], out);
    let mut turn = hub.take_turn(rt, pass);
    let mut at = 0;
    while let Some(record) = next_record(list, at) {
        let part = part_for(add_leaf(&mut turn, space, record));
        push_part(&part, out);
        at += record.len();
    }
    turn.leave();
}

// Adds records of which some are no leaves, each leaf in a turn of its own.
fn add_each<D: Device>(
    hub: &Hub<D>,
    rt: &impl Wait,
    pass: &mut HubPass<D>,
    head: Head,
    space: Space,
    list: &[u8],
    out: &mut Piece,
)
    requires list { IsRecordList list.now }
    requires empty { out.old ≡ [] }
    requires idle { IsIdleAt hub.now pass.old }
    ensures puts { PutsParts head space pass.old list.now out.new pass.new }
    ensures idle { IsIdleAt hub.now pass.new }
{
    write_reply(head, list_kind(space), &[], out);
    let mut at = 0;
    while let Some(record) = next_record(list, at) {
        let part = part_for(add(hub, rt, pass, space, record));
        push_part(&part, out);
        at += record.len();
    }
}
