use std::alloc::AllocError;

/// What would be too large.
#[derive(Clone, Copy, Debug, PartialEq, Eq)]
pub enum Which {
    /// The directory, whose blocks are listed in one block.
    Directory,
    /// The number of blocks of the file.
    Blocks,
}

/// Why edits were not planned.
#[derive(Clone, Copy, Debug, PartialEq, Eq)]
pub enum PlanFault {
    /// The directory would have so many bytes, or the file so many blocks.
    Full { which: Which, needed: u32 },
    OutOfMemory,
}

impl From<AllocError> for PlanFault {
    ghost use Rattle.std.specs.Prelude.{◌≡◌};
    ghost use Rattle.cow_streams.specs.declared.fault.PlanFault.TheVariants as fault;

    ghost from_gives = { λ _ e. e ≡ fault.OutOfMemory };

    fn from(_e: AllocError) -> PlanFault {
        PlanFault::OutOfMemory
    }
}
