ghost use Rattle.std.specs.Prelude.{◌≡◌};

use cow_streams::Plan;
use std::marker::Model;

/// A commit that a store planned, and that may be written into it.
#[derive(Drop)]
pub struct Prepared {
    plan: Plan,
}

impl Model for Prepared {
    ghost use Rattle.cow_streams.specs.Planned.{Planned};

    ghost Value = { Planned };

    ghost view = { λ p. p.plan };
}

impl Prepared {
    pub(crate) fn new(plan: Plan) -> Prepared
        ensures { result ≡ plan }
    {
        Prepared { plan }
    }

    pub(crate) fn into_plan(self) -> Plan
        ensures { result ≡ self }
    {
        self.plan
    }
}
