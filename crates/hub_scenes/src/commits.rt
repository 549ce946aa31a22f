ghost use Rattle.hub.specs.Ends.{IsFree};

use hub::{Hub, HubPass};
use srv_edge::{Device, Refusal};
use std::sync::Wait;

/// What is answered while another's commit is under way, and what that comes to.
#[derive(Clone, Copy, Debug, PartialEq, Eq)]
pub struct Within {
    pub number: u32,
    pub second: Result<u32, Refusal>,
    pub added: Result<u32, Refusal>,
    pub ended: Result<u32, Refusal>,
}

/// The one caller begins a commit. Before it is written the other asks for a commit, and adds a type.
pub fn add_within<D: Device>(
    rt: &impl Wait,
    hub: &Hub<D>,
    one: &mut HubPass<D>,
    two: &mut HubPass<D>,
    record: &[u8],
) -> Result<Within, Refusal>
    requires one { IsFree hub.now one.old }
    requires two { IsFree hub.now two.old }
    ensures one { IsFree hub.now one.new }
    ensures two { IsFree hub.now two.new }
{
    let out = hub.try_begin_commit(rt, one)?;
    let number = out.number();
    let second = hub.commit(rt, two);
    let added = hub.add_type(rt, two, record);
    let done = out.write_out();
    let ended = hub.end_commit(rt, one, done);
    Ok(Within {
        number,
        second,
        added,
        ended,
    })
}
