//! The streams of a file that is opened, each judged before the next is read.

ghost use Rattle.std.specs.Prelude.{◌≡◌, ◌≤◌, true, length, IsTrue, IfSome, IfOk, IfErr, IsErrOf, Err, Some};
ghost use Rattle.srv_edge.specs.Count.{HasCause};
ghost use Rattle.msf_blocks.specs.Judging.{Tells, told_by};
ghost use Rattle.msf_image.specs.Faults.{damage_in};
ghost use Rattle.committer.specs.Stored.{IsSettledFile, newest};
ghost use Rattle.table_model.specs.Bounds.{bounded_table, bounds_of};
ghost use Rattle.type_store.specs.Commit.{extent_of};
ghost use Rattle.type_store.specs.Commits.{contents_of};
ghost use Rattle.tpi_stream.specs.Reading as records;
ghost use Rattle.names_table.specs.Names.{IsNamesTable};
ghost use Rattle.names_table.specs.Reading as names;
ghost use Rattle.type_store.specs.Faults.{damage_at, names_damage, record_damage};
ghost use Rattle.type_store.specs.Committed.{HoldsTables};
ghost use Rattle.type_store.specs.Holds.{content_at, holding, info_in, names_held, records_held, stream_of};
ghost use Rattle.type_store.specs.Views.{tables_in};
ghost use Rattle.type_store.specs.Opening.{AreInStream, AreRead, AreStreams, HasInfo, HasNames, HasRecords, OnlyReadsStore, names_told, records_told};

use crate::base::Base;
use crate::content::{is_apart, read_content};
use crate::cut::CutRef;
use crate::fault::{absent_damage, hash_damage, info_fault, names_fault, record_fault};
use crate::tables::{KeptNumbers, Tables};
use committer::Store;
use info_stream::{age, find_stream};
use leaf_grammar::Space;
use msf_image::{Damage, DamageKind, OpenFault};
use names_table::{NamesTable, read_names};
use record_table::RecordTable;
use srv_edge::{Device, Limits};
use std::alloc::Global;
use std::hash::RandomState;
use tpi_stream::{Header, Records, kept_of, read_records};

/// What the PDB stream of an opened file tells.
#[derive(Drop)]
pub(crate) struct Info {
    /// The stream itself.
    pub bytes: Vec<u8>,
    pub names_stream: u32,
    pub age: u32,
}

/// The PDB stream.
#[tactic(auto, unfolding(crate::specs::Holds::info_in))]
pub(crate) fn read_info<D: Device>(alloc: Global, store: &mut Store<D>) -> Result<Info, OpenFault>
    requires { IsSettledFile store.old.file }
    ensures told { IsTrue D.tells → Tells damage_in (λ info. (info.names_stream, info.age)) result
        (info_in (contents_of (D.seen store.old.device) (newest store.old.file))) }
    ensures content { IsTrue D.tells → IfOk result (λ info. content_at
        (contents_of (D.seen store.old.device) (newest store.old.file)) 1
        ≡ Some info.bytes.items) }
    ensures found { IfOk result (λ info. HasInfo (newest store.old.file).directory
        info.bytes.items info.names_stream info.age) }
    ensures only_reads { OnlyReadsStore D.Device store.old store.new }
    ensures disk_fault { HasCause (IsErrOf result OpenFault.DiskFault)
        (D.fault_count store.old.device) (D.fault_count store.new.device) }
{
    let absent = Damage {
        kind: DamageKind::InfoShort,
        place: 0,
    };
    let bytes = read_content(alloc, store, 1, absent)?;
    let names_stream = match find_stream(&bytes, b"/names") {
        Ok(number) => number,
        Err(fault) => return Err(info_fault(fault)),
    };
    let Some(age) = age(&bytes) else {
        unreachable!()
    };
    Ok(Info {
        bytes,
        names_stream,
        age,
    })
}

/// A stream of types or items: its header and its table. The hash stream is not read, and its
/// number is none of the others.
pub(crate) fn read_table<D: Device>(
    alloc: Global,
    store: &mut Store<D>,
    limits: Limits,
    space: Space,
    others: &[u32],
) -> Result<(Header, RecordTable), OpenFault>
    requires { IsSettledFile store.old.file }
    ensures told { IsTrue D.tells → Tells damage_in
        (λ read. record { header = read.0; list = read.1.records }) result (records_held
        (bounds_of limits) (contents_of (D.seen store.old.device) (newest store.old.file)) space
        others.now) }
    ensures found { IfOk result (λ read. HasRecords (bounds_of limits)
        (newest store.old.file).directory space others.now read.0 read.1.records) }
    ensures table { IfOk result
        (λ read. read.1 ≡ bounded_table (bounds_of limits) read.1.records) }
    ensures only_reads { OnlyReadsStore D.Device store.old store.new }
    ensures disk_fault { HasCause (IsErrOf result OpenFault.DiskFault)
        (D.fault_count store.old.device) (D.fault_count store.new.device) }
{
    let Records { header, list } = read_list(alloc, store, limits, space)?;
    if !is_apart(store, others, u32::from(header.hash_stream)) {
        return Err(OpenFault::from(hash_damage(space)));
    }
    let table = RecordTable::from_records(alloc, limits, list)?;
    Ok((header, table))
}

// The header and the records of a stream, whose bytes are then let go.
fn read_list<D: Device>(
    alloc: Global,
    store: &mut Store<D>,
    limits: Limits,
    space: Space,
) -> Result<Records, OpenFault>
    requires { IsSettledFile store.old.file }
    ensures told { IsTrue D.tells → Tells damage_in (λ read. read) result (records_told
        (bounds_of limits) (contents_of (D.seen store.old.device) (newest store.old.file)) space) }
    ensures found { IfOk result (λ read. AreInStream (bounds_of limits)
        (newest store.old.file).directory space read) }
    ensures only_reads { OnlyReadsStore D.Device store.old store.new }
    ensures disk_fault { HasCause (IsErrOf result OpenFault.DiskFault)
        (D.fault_count store.old.device) (D.fault_count store.new.device) }
{
    let number = stream_of(space);
    let bytes = read_content(alloc, store, number, absent_damage(space))?;
    judge_list(alloc, &bytes, limits, space)
}

// The header and the records of these bytes.
fn judge_list(
    alloc: Global,
    stream: &[u8],
    limits: Limits,
    space: Space,
) -> Result<Records, OpenFault>
    ensures told { Tells damage_in (λ read. read) result (told_by (record_damage space)
        (records.reading limits.records limits.bytes stream.now)) }
    ensures found { IfOk result (AreRead (bounds_of limits) (length stream.now)) }
    ensures no_fault { ¬ IsErrOf result OpenFault.DiskFault }
{
    match read_records(alloc, stream, limits) {
        Ok(records) => Ok(records),
        Err(fault) => Err(record_fault(space, fault)),
    }
}

// The stream of types or of items.
fn stream_of(space: Space) -> u32
    ensures { result ≡ stream_of space }
{
    match space {
        Space::Types => 2,
        Space::Items => 4,
    }
}

/// The names of the stream of this number.
pub(crate) fn read_name_table<D: Device>(
    alloc: Global,
    keys: RandomState,
    store: &mut Store<D>,
    limits: Limits,
    others: &[u32],
    number: u32,
) -> Result<NamesTable, OpenFault>
    requires { IsSettledFile store.old.file }
    ensures told { IsTrue D.tells → Tells damage_in (λ names. names) result (names_held
        (bounds_of limits) (contents_of (D.seen store.old.device) (newest store.old.file))
        others.now number) }
    ensures found { IfOk result (HasNames (bounds_of limits) (newest store.old.file).directory
        others.now number) }
    ensures only_reads { OnlyReadsStore D.Device store.old store.new }
    ensures disk_fault { HasCause (IsErrOf result OpenFault.DiskFault)
        (D.fault_count store.old.device) (D.fault_count store.new.device) }
{
    if !is_apart(store, others, number) {
        return Err(OpenFault::from(names_absent(number)));
    }
    read_names_at(alloc, keys, store, limits, number)
}

// The damage of a file that has no stream of names where one is named.
fn names_absent(number: u32) -> Damage
    ensures { result ≡ damage_at DamageKind.NamesStream number }
{
    Damage {
        kind: DamageKind::NamesStream,
        place: u64::from(number),
    }
}

// The names of a stream that stands apart, whose bytes are then let go.
fn read_names_at<D: Device>(
    alloc: Global,
    keys: RandomState,
    store: &mut Store<D>,
    limits: Limits,
    number: u32,
) -> Result<NamesTable, OpenFault>
    requires settled { IsSettledFile store.old.file }
    requires behind_first { 1 ≤ number }
    ensures told { IsTrue D.tells → Tells damage_in (λ names. names) result (names_told
        (bounds_of limits) (contents_of (D.seen store.old.device) (newest store.old.file))
        number) }
    ensures kept { IfOk result IsNamesTable }
    ensures limit { IfOk result (λ names. names.max_bytes ≡ limits.name_bytes) }
    ensures only_reads { OnlyReadsStore D.Device store.old store.new }
    ensures disk_fault { HasCause (IsErrOf result OpenFault.DiskFault)
        (D.fault_count store.old.device) (D.fault_count store.new.device) }
{
    let bytes = read_content(alloc, store, number, names_absent(number))?;
    judge_names(alloc, keys, &bytes, limits)
}

// The names of these bytes.
fn judge_names(
    alloc: Global,
    keys: RandomState,
    stream: &[u8],
    limits: Limits,
) -> Result<NamesTable, OpenFault>
    ensures told { Tells damage_in (λ names. names) result (told_by names_damage
        (names.reading limits.name_bytes stream.now)) }
    ensures kept { IfOk result IsNamesTable }
    ensures limit { IfOk result (λ names. names.max_bytes ≡ limits.name_bytes) }
    ensures no_fault { ¬ IsErrOf result OpenFault.DiskFault }
{
    match read_names(alloc, keys, stream, limits) {
        Ok(names) => Ok(names),
        Err(fault) => Err(names_fault(fault)),
    }
}

/// What the streams of an opened file hold.
#[derive(Drop)]
pub(crate) struct Streams {
    /// The PDB stream.
    pub info: Vec<u8>,
    pub age: u32,
    pub kept: KeptNumbers,
    pub tables: Tables,
    pub base: Base,
}

/// The streams of a file, in the order of their tests.
#[tactic(auto, unfolding(crate::specs::Holds::holding))]
pub(crate) fn read_streams<D: Device>(
    alloc: Global,
    keys: RandomState,
    store: &mut Store<D>,
    limits: Limits,
) -> Result<Streams, OpenFault>
    requires { IsSettledFile store.old.file }
    ensures holds { IsTrue D.tells → IfOk result (λ s. HoldsTables (bounds_of limits) s.kept
        s.info.items s.age (tables_in s.tables)
        (contents_of (D.seen store.old.device) (newest store.old.file))) }
    ensures damage { IsTrue D.tells → IfErr result (λ e. IfSome (damage_in e) (λ damage. holding
        (bounds_of limits) (contents_of (D.seen store.old.device) (newest store.old.file))
        ≡ Err damage)) }
    ensures base { IfOk result (λ s. s.base ≡ extent_of true (tables_in s.tables)) }
    ensures read { IfOk result (λ s. AreStreams (bounds_of limits)
        (newest store.old.file).directory s.kept s.info.items s.age (tables_in s.tables)) }
    ensures only_reads { OnlyReadsStore D.Device store.old store.new }
    ensures disk_fault { HasCause (IsErrOf result OpenFault.DiskFault)
        (D.fault_count store.old.device) (D.fault_count store.new.device) }
{
    let info = read_info(alloc, store)?;
    let (type_header, types) = read_table(alloc, store, limits, Space::Types, &[])?;
    let type_hashes = u32::from(type_header.hash_stream);
    let (item_header, items) = read_table(alloc, store, limits, Space::Items, &[type_hashes])?;
    let hashes = [type_hashes, u32::from(item_header.hash_stream)];
    let names = read_name_table(alloc, keys, store, limits, &hashes, info.names_stream)?;
    let base = Base::opened(alloc, &CutRef::new(info.age, &types, &items, &names))?;
    Ok(Streams {
        info: info.bytes,
        age: info.age,
        kept: KeptNumbers {
            types: kept_of(&type_header),
            items: kept_of(&item_header),
            names_stream: info.names_stream,
        },
        tables: Tables {
            types,
            items,
            names,
        },
        base,
    })
}
