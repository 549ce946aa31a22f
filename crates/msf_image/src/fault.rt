ghost use Rattle.std.specs.Prelude.{◌≡◌};
ghost use Rattle.msf_image.specs.Faults.{damage_of_directory, damage_of_superblock, fault_of_damage, fault_of_directory, fault_of_read, fault_of_superblock, kind_text};
ghost use Rattle.msf_image.specs.declared.fault.OpenFault.TheVariants.{DiskFault, OutOfMemory};

use crate::blocks::ReadFault;
use msf_blocks::SuperFault;
use srv_edge::Failed;
use std::alloc::{AllocError, AllocFailed};
use stream_directory::{DirDamage, DirFault};
use thiserror::Error;

/// What is wrong with a file: its container, or from `InfoShort` on what its streams hold.
/// docs/FORMAT.md has the tests in their order.
#[derive(Clone, Copy, Debug, PartialEq, Eq)]
pub enum DamageKind {
    Magic,
    BlockSize,
    FreeMap,
    Blocks,
    Directory,
    MapAddr,
    ReservedBlock,
    OutsideFile,
    BlockTwice,
    DirectoryShort,
    DirectoryExtra,
    BlockFree,
    InfoShort,
    NoNames,
    TypesHeader,
    TypesVersion,
    TypesBegin,
    TypesBytes,
    TypesRecord,
    TypesCount,
    TypesHash,
    ItemsHeader,
    ItemsVersion,
    ItemsBegin,
    ItemsBytes,
    ItemsRecord,
    ItemsCount,
    ItemsHash,
    NamesStream,
    NamesHeader,
    NamesSize,
    NamesText,
}

impl DamageKind {
    /// The word for it in a line.
    pub fn name(self) -> &'static str
        ensures { result.now ≡ kind_text self }
    {
        match self {
            DamageKind::Magic => "magic",
            DamageKind::BlockSize => "block-size",
            DamageKind::FreeMap => "free-map",
            DamageKind::Blocks => "blocks",
            DamageKind::Directory => "directory",
            DamageKind::MapAddr => "map-addr",
            DamageKind::ReservedBlock => "reserved-block",
            DamageKind::OutsideFile => "outside-file",
            DamageKind::BlockTwice => "block-twice",
            DamageKind::DirectoryShort => "directory-short",
            DamageKind::DirectoryExtra => "directory-extra",
            DamageKind::BlockFree => "block-free",
            DamageKind::InfoShort => "info-short",
            DamageKind::NoNames => "no-names",
            DamageKind::TypesHeader => "types-header",
            DamageKind::TypesVersion => "types-version",
            DamageKind::TypesBegin => "types-begin",
            DamageKind::TypesBytes => "types-bytes",
            DamageKind::TypesRecord => "types-record",
            DamageKind::TypesCount => "types-count",
            DamageKind::TypesHash => "types-hash",
            DamageKind::ItemsHeader => "items-header",
            DamageKind::ItemsVersion => "items-version",
            DamageKind::ItemsBegin => "items-begin",
            DamageKind::ItemsBytes => "items-bytes",
            DamageKind::ItemsRecord => "items-record",
            DamageKind::ItemsCount => "items-count",
            DamageKind::ItemsHash => "items-hash",
            DamageKind::NamesStream => "names-stream",
            DamageKind::NamesHeader => "names-header",
            DamageKind::NamesSize => "names-size",
            DamageKind::NamesText => "names-text",
        }
    }
}

/// The first test that a file fails, and where: an offset in the superblock, the directory or a
/// stream, or the number of a block or of a stream.
#[derive(Clone, Copy, Debug, PartialEq, Eq)]
pub struct Damage {
    pub kind: DamageKind,
    pub place: u64,
}

/// Why a file was not opened, or not read.
#[derive(Clone, Copy, Debug, PartialEq, Eq, Error)]
pub enum OpenFault {
    /// The first test that the file fails, and where, as in a `Damage`.
    #[error("damage {} {place}", .kind.name())]
    Damage { kind: DamageKind, place: u64 },
    /// The device failed.
    #[error("disk fault")]
    DiskFault,
    #[error("out of memory")]
    OutOfMemory,
}

impl From<Failed> for OpenFault {
    ghost from_gives = { λ _ e. e ≡ DiskFault };

    fn from(_e: Failed) -> OpenFault {
        OpenFault::DiskFault
    }
}

impl From<AllocError> for OpenFault {
    ghost from_gives = { λ _ e. e ≡ OutOfMemory };

    fn from(_e: AllocError) -> OpenFault {
        OpenFault::OutOfMemory
    }
}

impl<T: Drop> From<AllocFailed<T>> for OpenFault {
    ghost from_gives = { λ _ e. e ≡ OutOfMemory };

    fn from(_e: AllocFailed<T>) -> OpenFault {
        OpenFault::OutOfMemory
    }
}

impl From<ReadFault> for OpenFault {
    ghost from_gives = { λ fault e. e ≡ fault_of_read fault };

    fn from(fault: ReadFault) -> OpenFault {
        match fault {
            ReadFault::Failed => OpenFault::DiskFault,
            ReadFault::OutOfMemory => OpenFault::OutOfMemory,
        }
    }
}

impl From<Damage> for OpenFault {
    ghost from_gives = { λ damage e. e ≡ fault_of_damage damage };

    fn from(damage: Damage) -> OpenFault {
        OpenFault::Damage {
            kind: damage.kind,
            place: damage.place,
        }
    }
}

impl From<SuperFault> for Damage {
    ghost from_gives = { λ fault damage. damage ≡ damage_of_superblock fault };

    fn from(fault: SuperFault) -> Damage {
        let (kind, place) = match fault {
            SuperFault::Magic => (DamageKind::Magic, 0),
            SuperFault::BlockSize => (DamageKind::BlockSize, 32),
            SuperFault::FreeMap => (DamageKind::FreeMap, 36),
            SuperFault::Blocks => (DamageKind::Blocks, 40),
            SuperFault::Directory => (DamageKind::Directory, 44),
            SuperFault::MapAddr => (DamageKind::MapAddr, 52),
        };
        Damage { kind, place }
    }
}

impl From<DirDamage> for Damage {
    ghost from_gives = { λ found damage. damage ≡ damage_of_directory found };

    fn from(found: DirDamage) -> Damage {
        let (kind, place) = match found {
            DirDamage::Short { at } => (DamageKind::DirectoryShort, at),
            DirDamage::Extra { at } => (DamageKind::DirectoryExtra, at),
            DirDamage::ReservedBlock { block } => (DamageKind::ReservedBlock, u64::from(block)),
            DirDamage::OutsideFile { block } => (DamageKind::OutsideFile, u64::from(block)),
            DirDamage::BlockTwice { block } => (DamageKind::BlockTwice, u64::from(block)),
        };
        Damage { kind, place }
    }
}

impl From<SuperFault> for OpenFault {
    ghost from_gives = { λ fault e. e ≡ fault_of_superblock fault };

    fn from(fault: SuperFault) -> OpenFault {
        OpenFault::from(Damage::from(fault))
    }
}

impl From<DirFault> for OpenFault {
    ghost from_gives = { λ fault e. e ≡ fault_of_directory fault };

    fn from(fault: DirFault) -> OpenFault {
        match fault {
            DirFault::Damage(found) => OpenFault::from(Damage::from(found)),
            DirFault::OutOfMemory => OpenFault::OutOfMemory,
        }
    }
}
