//! The damage of a file that a fault of one of its streams is.

ghost use Rattle.std.specs.Prelude.{◌≡◌};
ghost use Rattle.msf_image.specs.Faults.{fault_of_damage};
ghost use Rattle.type_store.specs.Faults.{absent_damage, hash_damage, info_damage, names_fault, record_fault};

use info_stream::InfoFault;
use leaf_grammar::Space;
use msf_image::{Damage, DamageKind, OpenFault};
use names_table::NamesFault;
use tpi_stream::TpiFault;

/// The damage of a PDB stream.
pub(crate) fn info_fault(fault: InfoFault) -> OpenFault
    ensures { result ≡ fault_of_damage (info_damage fault) }
{
    let (kind, place) = match fault {
        InfoFault::Short { at } => (DamageKind::InfoShort, at),
        InfoFault::NoName => (DamageKind::NoNames, 0),
    };
    OpenFault::Damage { kind, place }
}

/// The damage of a file that has no stream of types or items.
pub(crate) fn absent_damage(space: Space) -> Damage
    ensures { result ≡ absent_damage space }
{
    let kind = match space {
        Space::Types => DamageKind::TypesHeader,
        Space::Items => DamageKind::ItemsHeader,
    };
    Damage { kind, place: 0 }
}

/// The damage of a file whose hash stream has a number that it may not have.
pub(crate) fn hash_damage(space: Space) -> Damage
    ensures { result ≡ hash_damage space }
{
    let kind = match space {
        Space::Types => DamageKind::TypesHash,
        Space::Items => DamageKind::ItemsHash,
    };
    Damage { kind, place: 20 }
}

/// The damage of a stream of types or items, unless memory was wanted.
pub(crate) fn record_fault(space: Space, fault: TpiFault) -> OpenFault
    ensures { result ≡ record_fault space fault }
{
    let (types, items, place) = match fault {
        TpiFault::Header { at } => (DamageKind::TypesHeader, DamageKind::ItemsHeader, at),
        TpiFault::Version { at } => (DamageKind::TypesVersion, DamageKind::ItemsVersion, at),
        TpiFault::Begin { at } => (DamageKind::TypesBegin, DamageKind::ItemsBegin, at),
        TpiFault::Bytes { at } => (DamageKind::TypesBytes, DamageKind::ItemsBytes, at),
        TpiFault::Record { at } => (DamageKind::TypesRecord, DamageKind::ItemsRecord, at),
        TpiFault::Count { at } => (DamageKind::TypesCount, DamageKind::ItemsCount, at),
        TpiFault::OutOfMemory => return OpenFault::OutOfMemory,
    };
    let kind = match space {
        Space::Types => types,
        Space::Items => items,
    };
    OpenFault::Damage { kind, place }
}

/// The damage of a stream of names, unless memory was wanted.
pub(crate) fn names_fault(fault: NamesFault) -> OpenFault
    ensures { result ≡ names_fault fault }
{
    let (kind, at) = match fault {
        NamesFault::Header { at } => (DamageKind::NamesHeader, at),
        NamesFault::Size { at } => (DamageKind::NamesSize, at),
        NamesFault::Text { at } => (DamageKind::NamesText, at),
        NamesFault::OutOfMemory => return OpenFault::OutOfMemory,
    };
    let place = u64::from(at);
    OpenFault::Damage { kind, place }
}
