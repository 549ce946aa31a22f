ghost use Rattle.std.specs.Prelude.{◌≡◌};
ghost use Rattle.committer.specs.Fault.{limit_of};

use cow_streams::{PlanFault, Which};
use srv_edge::Failed;
use thiserror::Error;

/// The limit of a directory's bytes, by its number in a refusal.
pub const DIRECTORY: u8 = 6;

/// The limit of a file's blocks, by its number in a refusal.
pub const BLOCKS: u8 = 7;

/// Why a commit was not made.
#[derive(Clone, Copy, Debug, PartialEq, Eq, Error)]
pub enum CommitFault {
    /// A limit would be passed, and what would be needed.
    #[error("full {which} {needed}")]
    Full { which: u8, needed: u32 },
    /// The device failed.
    #[error("disk fault")]
    DiskFault,
    #[error("out of memory")]
    OutOfMemory,
}

impl From<PlanFault> for CommitFault {
    ghost use Rattle.std.specs.Prelude.{◌≡◌};
    ghost use Rattle.committer.specs.Fault.{fault_of_plan};

    ghost from_gives = { λ fault e. e ≡ fault_of_plan fault };

    fn from(fault: PlanFault) -> CommitFault {
        match fault {
            PlanFault::Full { which, needed } => CommitFault::Full {
                which: number_of(which),
                needed,
            },
            PlanFault::OutOfMemory => CommitFault::OutOfMemory,
        }
    }
}

// The number of a limit in a refusal.
fn number_of(which: Which) -> u8
    ensures { result ≡ limit_of which }
{
    match which {
        Which::Directory => DIRECTORY,
        Which::Blocks => BLOCKS,
    }
}

impl From<Failed> for CommitFault {
    ghost use Rattle.std.specs.Prelude.{◌≡◌};
    ghost use Rattle.committer.specs.declared.fault.CommitFault.TheVariants as commit;

    ghost from_gives = { λ _ e. e ≡ commit.DiskFault };

    fn from(_e: Failed) -> CommitFault {
        CommitFault::DiskFault
    }
}
