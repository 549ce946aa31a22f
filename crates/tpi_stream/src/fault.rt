//! Why a stream was not read.

ghost use Rattle.std.specs.Prelude.{◌≡◌};
ghost use Rattle.tpi_stream.specs.declared.fault.TpiFault.TheVariants as fault;

use std::alloc::{AllocError, AllocFailed};

/// The first test that a stream fails, and the place in the stream that it names; or that memory
/// was wanted.
#[derive(Clone, Copy, Debug, PartialEq, Eq)]
pub enum TpiFault {
    /// The stream is shorter than a header, or the size of the header or of a hash, or the number
    /// of buckets, is none that is read.
    Header { at: u64 },
    /// Another version.
    Version { at: u64 },
    /// Another first index.
    Begin { at: u64 },
    /// More bytes of records than the limit, or than the stream has.
    Bytes { at: u64 },
    /// Bytes that are no record.
    Record { at: u64 },
    /// A number of records that is over the limit, or not the number that there are.
    Count { at: u64 },
    OutOfMemory,
}

impl From<AllocError> for TpiFault {
    ghost from_gives = { λ _ e. e ≡ fault.OutOfMemory };

    fn from(_e: AllocError) -> TpiFault {
        TpiFault::OutOfMemory
    }
}

impl<T: Drop> From<AllocFailed<T>> for TpiFault {
    ghost from_gives = { λ _ e. e ≡ fault.OutOfMemory };

    fn from(_e: AllocFailed<T>) -> TpiFault {
        TpiFault::OutOfMemory
    }
}
