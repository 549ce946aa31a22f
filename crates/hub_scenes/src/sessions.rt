ghost use Rattle.hub.specs.Ends.{IsFree};
ghost use Rattle.srv_edge.specs.declared.limit.TheConstants.{SESSION_BYTES};

use client_session::Shared;
use hub::{Hub, HubPass};
use request_frames::serve_link;
use srv_edge::{Device, Link, Room, limit};
use std::sync::Wait;

/// Serves a link over a hub, and hands the pass back by which its requests went.
pub fn serve<R: Wait, D: Device, L: Link>(
    rt: &R,
    hub: &Hub<D>,
    pass: HubPass<D>,
    link: &mut L,
    room: &mut Room,
) -> HubPass<D>
    requires { IsFree hub.now pass }
    ensures { IsFree hub.now result }
{
    let mut desk = Shared::new(hub, pass);
    serve_link(rt, link, &mut desk, limit::SESSION_BYTES, room);
    desk.end()
}
