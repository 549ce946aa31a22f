ghost use Rattle.std.specs.Prelude.{◌≡◌, IfSome};
ghost use Rattle.hub.specs.Ends.{IsClosed};
ghost use Rattle.hub_scenes.specs.Seats.{AreSeated};
ghost use Rattle.turnstile.specs.Passes.{PassView, opening_pass};
ghost use Rattle.turnstile.specs.declared.history.Basis.{Basis};

use hub::{Book, Ended, Hub, HubPass};
use srv_edge::{Device, Limits, MemDevice};
use std::alloc::Global;
use std::hash::RandomState;
use type_store::PdbFile;

/// A hub with its first pass and those of three callers. It has to be ended.
pub struct Seats<D: Device> {
    pub hub: Hub<D>,
    pub first: HubPass<D>,
    pub one: HubPass<D>,
    pub two: HubPass<D>,
    pub three: HubPass<D>,
}

/// A hub over a new file in memory, with the passes of three callers. None where there is no memory.
pub fn make_hub(alloc: Global, keys: RandomState, limits: Limits) -> Option<Seats<MemDevice>>
    ensures { IfSome result AreSeated }
{
    let device = MemDevice::new(alloc, Vec::new(alloc), Vec::new(alloc));
    let Ok((file, tables)) = PdbFile::create(alloc, keys, device, 4096, [0; 16], 0, limits) else {
        return None;
    };
    match Hub::new(alloc, Book::new(file, tables), limits) {
        Ok((hub, first)) => Some(take_seats(hub, first)),
        Err(_) => None,
    }
}

// The first pass of a new hub splits off three others.
fn take_seats<D: Device>(hub: Hub<D>, mut first: HubPass<D>) -> Seats<D>
    requires { (basis : Basis) × (first ≡ opening_pass hub basis) }
    ensures { AreSeated result }
{
    let one = hub.split(&mut first);
    let two = hub.split(&mut first);
    let three = hub.split(&mut first);
    Seats {
        hub,
        first,
        one,
        two,
        three,
    }
}

/// The end of a hub: the first pass takes in the other three, and the hub closes.
pub fn end<D: Device>(seats: Seats<D>) -> Ended<D>
    requires { AreSeated seats }
    ensures { (last : PassView) × (last.basis ≡ seats.first.basis) × IsClosed D.Device last result }
{
    let Seats {
        hub,
        mut first,
        one,
        two,
        three,
    } = seats;
    hub.retire(&mut first, one);
    hub.retire(&mut first, two);
    hub.retire(&mut first, three);
    hub.close(first)
}
