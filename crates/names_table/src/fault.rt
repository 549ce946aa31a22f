ghost use Rattle.std.specs.Prelude.{◌≡◌};
ghost use Rattle.names_table.specs.declared.fault.NamesFault.TheVariants as fault;

use std::alloc::AllocError;

/// Why a new name was not added.
#[derive(Clone, Copy, Debug, PartialEq, Eq)]
pub enum NameFault {
    /// The names would take so many bytes.
    Full { needed: u32 },
    OutOfMemory,
}

/// Why a stream of names was not read: the first test that fails, with its place in the stream.
#[derive(Clone, Copy, Debug, PartialEq, Eq)]
pub enum NamesFault {
    /// Less than a header, another signature, or an unknown version of the hashes.
    Header { at: u32 },
    /// The strings pass the limit or the end of the stream.
    Size { at: u32 },
    /// The strings do not begin or end with a NUL, or a name is too long.
    Text { at: u32 },
    OutOfMemory,
}

impl From<AllocError> for NamesFault {
    ghost from_gives = { λ _ e. e ≡ fault.OutOfMemory };

    fn from(_e: AllocError) -> NamesFault {
        NamesFault::OutOfMemory
    }
}
