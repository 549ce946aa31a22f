ghost use Rattle.std.specs.Prelude.{◌≡◌, ◌≤◌, ◌<◌, ◌+◌, ◌^◌, min};
ghost use Rattle.srv_edge.specs.Count.{Rose, last_count};

use crate::failed::Failed;

/// How often something has failed. It stands still at its last value.
#[derive(Clone, Copy, Debug, PartialEq, Eq)]
pub struct FaultCount {
    pub count: u64,
    pub ghost below: { count < 2 ^ 64 },
}

impl FaultCount {
    pub const NONE: FaultCount = FaultCount { count: 0 };

    /// Counts a fault.
    pub fn add(&mut self) -> Failed
        ensures counted { self.new.count ≡ min (self.old.count + 1) last_count }
        ensures never_falls { self.old.count ≤ self.new.count }
        ensures rose { Rose self.old.count self.new.count }
    {
        self.count = self.count.saturating_add(1);
        Failed
    }
}
