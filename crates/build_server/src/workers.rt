ghost use Rattle.std.specs.Prelude.{◌≡◌, ◌<◌, ◌≤◌, ◌+◌, All, [], length, map, vec_capacity, vec_len};
ghost use Rattle.turnstile.specs.Histories.{Begins};
ghost use Rattle.turnstile.specs.Passes.{IsIdleAt};
ghost use Rattle.build_server.specs.Workers.{AreRetiredFrom, badge_of, badges_from};

use crate::worker::Worker;
use client_session::Shared;
use hub::{Hub, HubPass};
use srv_edge::{Device, Room};
use std::sync::Wait;

// Pass 0 splits off a pass for each room, and so for each worker. There is memory for the workers.
pub(crate) fn take_seats<'h, R: Wait, D: Device>(
    hub: &'h Hub<D>,
    first: &mut HubPass<D>,
    rooms: Vec<Room>,
    workers: &mut Vec<Worker<'h, R, D>>,
)
    requires idle { IsIdleAt hub.now first.old }
    requires first { (first.old.number ≡ 0) × (first.old.made ≡ 1) }
    requires few { vec_len rooms < 255 }
    requires none { workers.old.items ≡ [] }
    requires memory { vec_len rooms ≤ vec_capacity workers.old }
    ensures passes { map (λ w. badge_of w.desk) workers.new.items
        ≡ badges_from hub.now 1 (vec_len rooms) }
    ensures unused { All (λ w. w.links ≡ 0) workers.new.items }
    ensures first { first.new ≡ record first.old { made = vec_len rooms + 1 } }
{
    for room in rooms {
        let pass = hub.split(first);
        workers.push_reserved(Worker {
            desk: Shared::new(hub, pass),
            room,
            links: 0,
        });
    }
}

// Pass 0 takes in the pass of each worker.
pub(crate) fn retire_all<'h, R: Wait, D: Device>(
    hub: &'h Hub<D>,
    first: &mut HubPass<D>,
    workers: Vec<Worker<'h, R, D>>,
)
    requires idle { IsIdleAt hub.now first.old }
    requires first { (first.old.number ≡ 0) × (first.old.ended ≡ []) }
    requires passes { map (λ w. badge_of w.desk) workers.items
        ≡ badges_from hub.now 1 (vec_len workers) }
    ensures seen { Begins first.old.seen first.new.seen }
    ensures same { first.new
        ≡ record first.old { seen = first.new.seen; ended = first.new.ended } }
    ensures retired { AreRetiredFrom 1 first.new.ended }
    ensures count { length first.new.ended ≡ vec_len workers.entry }
{
    for worker in workers {
        let Worker {
            desk,
            room: _,
            links: _,
        } = worker;
        hub.retire(first, desk.end());
    }
}
