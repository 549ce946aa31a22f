ghost use denote.Param.Send.{IsSync};
ghost use Rattle.hub.specs.Ends.{IsFree};

use hub::{Hub, HubPass};
use srv_edge::Device;
use std::sync::Wait;
use std::thread::{Threads, join};

// How many records each caller adds that others add too, and how many commits there are.
const ROUNDS: u8 = 50;

const COMMITS: u8 = 5;

// Adds a modifier that the other caller adds too, and one of its own.
fn add_two<D: Device>(rt: &impl Wait, hub: &Hub<D>, pass: &mut HubPass<D>, round: u8, own: u8)
    requires { IsFree hub.now pass.old }
    ensures { IsFree hub.now pass.new }
{
    let _ = hub.add_type(rt, pass, &[10, 0, 1, 16, 116, 0, 0, 0, round, 0, 242, 241]);
    let _ = hub.add_type(
        rt,
        pass,
        &[10, 0, 1, 16, 116, 0, 0, 0, round, own, 242, 241],
    );
}

fn add_all<D: Device>(rt: &impl Wait, hub: &Hub<D>, mut pass: HubPass<D>, own: u8) -> HubPass<D>
    requires { IsFree hub.now pass }
    ensures { IsFree hub.now result }
{
    for round in 0..ROUNDS {
        add_two(rt, hub, &mut pass, round, own);
    }
    pass
}

fn commit_all<D: Device>(rt: &impl Wait, hub: &Hub<D>, mut pass: HubPass<D>) -> HubPass<D>
    requires { IsFree hub.now pass }
    ensures { IsFree hub.now result }
{
    for _commit in 0..COMMITS {
        let _ = hub.commit(rt, &mut pass);
    }
    pass
}

fn add_in_two<D: Device + Send, R: Threads + Wait + Sync>(
    rt: &R,
    hub: &Hub<D>,
    one: HubPass<D>,
    two: HubPass<D>,
) -> (HubPass<D>, HubPass<D>)
    requires one { IsFree hub.now one }
    requires two { IsFree hub.now two }
    ensures one { IsFree hub.now result.0 }
    ensures two { IsFree hub.now result.1 }
{
    join(
        rt,
        move || -> HubPass<D>
            requires { IsSync R.row × IsFree hub.now one }
            ensures { IsFree hub.entry.now result }
        { add_all(rt, hub, one, 1) },
        move || -> HubPass<D>
            requires { IsSync R.row × IsFree hub.now two }
            ensures { IsFree hub.entry.now result }
        { add_all(rt, hub, two, 2) },
    )
}

/// Two threads add the same records and others of their own, while a third commits five times. Each has
/// the pass of its caller.
pub fn add_and_commit<D: Device + Send, R: Threads + Wait + Sync>(
    rt: &R,
    hub: &Hub<D>,
    one: HubPass<D>,
    two: HubPass<D>,
    three: HubPass<D>,
) -> ((HubPass<D>, HubPass<D>), HubPass<D>)
    requires one { IsFree hub.now one }
    requires two { IsFree hub.now two }
    requires three { IsFree hub.now three }
    ensures one { IsFree hub.now result.0.0 }
    ensures two { IsFree hub.now result.0.1 }
    ensures three { IsFree hub.now result.1 }
{
    join(
        rt,
        move || -> (HubPass<D>, HubPass<D>)
            requires { IsSync R.row × IsFree hub.now one × IsFree hub.now two }
            ensures { IsFree hub.entry.now result.0 × IsFree hub.entry.now result.1 }
        { add_in_two(rt, hub, one, two) },
        move || -> HubPass<D>
            requires { IsSync R.row × IsFree hub.now three }
            ensures { IsFree hub.entry.now result }
        { commit_all(rt, hub, three) },
    )
}
