//! Why a directory could not be read.

ghost use Rattle.std.specs.Prelude.{◌≡◌};
ghost use Rattle.stream_directory.specs.declared.fault.DirFault.TheVariants as fault;

use std::alloc::{AllocError, AllocFailed};

/// The first thing that is wrong with a directory.
#[derive(Clone, Copy, Debug, PartialEq, Eq)]
pub enum DirDamage {
    /// A field does not fit: where it begins.
    Short { at: u64 },
    /// Bytes remain: where the first of them stands.
    Extra { at: u64 },
    /// A stream has a block of the superblock or of a free block map.
    ReservedBlock { block: u32 },
    /// A stream has a block that the file does not have.
    OutsideFile { block: u32 },
    /// A block is used twice.
    BlockTwice { block: u32 },
}

/// Why a directory was not read: what is wrong with it, or that memory was wanted.
#[derive(Clone, Copy, Debug, PartialEq, Eq)]
pub enum DirFault {
    Damage(DirDamage),
    OutOfMemory,
}

impl From<DirDamage> for DirFault {
    ghost from_gives = { λ damage e. e ≡ fault.Damage damage };

    fn from(damage: DirDamage) -> DirFault {
        DirFault::Damage(damage)
    }
}

impl From<AllocError> for DirFault {
    ghost from_gives = { λ _ e. e ≡ fault.OutOfMemory };

    fn from(_e: AllocError) -> DirFault {
        DirFault::OutOfMemory
    }
}

impl<T: Drop> From<AllocFailed<T>> for DirFault {
    ghost from_gives = { λ _ e. e ≡ fault.OutOfMemory };

    fn from(_e: AllocFailed<T>) -> DirFault {
        DirFault::OutOfMemory
    }
}
