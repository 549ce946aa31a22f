//! The edits of a commit of tables. What a commit does not write is not read: the texts are made of
//! the tables, and of them alone the parts that are written.

ghost use Rattle.std.specs.Prelude.{◌≡◌, ◌≤◌, ◌+◌, ◌*◌, ◌/◌, ◌%◌, ◌^◌, ◌<◌, ◌++◌, false, length, IfOk, OnOk};
ghost use Rattle.srv_edge.specs.Records.{joined};
ghost use Rattle.record_table.specs.Buckets.{hashes_of};
ghost use Rattle.info_stream.specs.Text.{with_age};
ghost use Rattle.msf_blocks.specs.Blocks.{IsBlockSize};
ghost use Rattle.names_table.specs.Names.{bytes_of};
ghost use Rattle.names_table.specs.Text.{names_text};
ghost use Rattle.names_table.specs.declared.read.TheConstants as names;
ghost use Rattle.tpi_stream.specs.Hashes.{hash_text};
ghost use Rattle.tpi_stream.specs.Written.{CanBeKept, record_stream_text};
ghost use Rattle.tpi_stream.specs.declared.header.TheConstants.{HEADER_BYTES, KEY_BYTES};
ghost use Rattle.type_store.specs.Commit.{all_from, block_start, commit_edits, extent_of, first_and_from, first_block, hash_edits, names_edits, record_edits};
ghost use Rattle.type_store.specs.Committed.{BuildsOn, RecordsChange};
ghost use Rattle.type_store.specs.Written.{CanKeep};

use crate::base::{Base, RecordBase};
use crate::cut::CutRef;
use crate::tables::KeptNumbers;
use info_stream::with_age;
use msf_blocks::Edit;
use names_table::NamesTable;
use srv_edge::RecordList;
use std::alloc::{AllocError, Global};
use tpi_stream::{
    HEADER_BYTES, KEY_BYTES, Kept, hash_text_from, record_stream_first, record_stream_from,
};

/// The edits of a commit on an image of which the streams reach so far, where they are to reach as
/// far as `new` says. Of the PDB stream all but the age is given.
#[tactic(auto, unfolding(crate::specs::Commit::commit_edits))]
pub(crate) fn commit_edits<'a>(
    alloc: Global,
    block_size: u32,
    kept: &KeptNumbers,
    info: &[u8],
    old: &Base,
    new: &Base,
    cut: &'a CutRef,
) -> Result<Vec<Edit<'a>>, AllocError>
    requires size { IsBlockSize block_size }
    requires kept { CanKeep kept.now info.now }
    requires short { length info.now < 2 ^ 32 }
    requires base { BuildsOn old.now cut.now.tables }
    requires new { new.now ≡ extent_of false cut.now.tables }
    ensures { IfOk result (λ edits. edits.items
        ≡ commit_edits block_size kept.now old.now info.now cut.now.number cut.now.tables) }
{
    let types = RecordChange {
        fresh: old.is_fresh(),
        old: old.types(),
        new: new.types(),
        records: cut.types().records(),
        hashes: cut.types().hashes(),
    };
    let items = RecordChange {
        fresh: old.is_fresh(),
        old: old.items(),
        new: new.items(),
        records: cut.items().records(),
        hashes: cut.items().hashes(),
    };
    let mut edits = Vec::with_capacity(alloc, 9)?;
    edits.push(info_edit(alloc, info, cut.number())?)?;
    put_records(alloc, &mut edits, block_size, 2, kept.types, &types)?;
    put_records(alloc, &mut edits, block_size, 4, kept.items, &items)?;
    put_hashes(alloc, &mut edits, block_size, kept.types, &types)?;
    put_hashes(alloc, &mut edits, block_size, kept.items, &items)?;
    put_names(
        alloc,
        &mut edits,
        block_size,
        kept.names_stream,
        old,
        cut.names(),
    )?;
    Ok(edits)
}

// All of the PDB stream, with another age.
fn info_edit<'a>(alloc: Global, info: &[u8], age: u32) -> Result<Edit<'a>, AllocError>
    requires long { 28 ≤ length info.now }
    requires short { length info.now < 2 ^ 32 }
    ensures { IfOk result (λ e. e ≡ all_from 1 (with_age info.now age) 0) }
{
    let mut text = info.to_vec(alloc)?;
    with_age(&mut text, age);
    Ok(Edit::new(1, 0, text, &[], info.len() as u32))
}

// The records of one space: how far their streams reach, and how far they are to reach.
#[derive(Drop)]
struct RecordChange<'a, 'b> {
    fresh: bool,
    old: &'b RecordBase,
    new: &'b RecordBase,
    records: &'a RecordList,
    hashes: &'b [u32],
}

// The edits of a stream of records.
#[tactic(auto, unfolding(crate::specs::Commit::record_edits))]
fn put_records<'a>(
    alloc: Global,
    edits: &mut Vec<Edit<'a>>,
    block_size: u32,
    stream: u32,
    kept: Kept,
    change: &RecordChange<'a, '_>,
) -> Result<(), AllocError>
    requires size { IsBlockSize block_size }
    requires change { RecordsChange change.now.old.now change.now.new.now change.now.records.now }
    ensures { OnOk result (edits.new.items ≡ edits.old.items ++ record_edits block_size
        change.now.fresh stream change.now.old.now kept change.now.records.now) }
{
    if change.old.count() < change.new.count() {
        return put_grown_records(alloc, edits, block_size, stream, kept, change);
    }
    if change.fresh {
        edits.push(first_of_records(alloc, block_size, stream, kept, change)?)?;
    }
    Ok(())
}

// Of a stream of records that grew.
fn put_grown_records<'a>(
    alloc: Global,
    edits: &mut Vec<Edit<'a>>,
    block_size: u32,
    stream: u32,
    kept: Kept,
    change: &RecordChange<'a, '_>,
) -> Result<(), AllocError>
    requires size { IsBlockSize block_size }
    requires change { RecordsChange change.now.old.now change.now.new.now change.now.records.now }
    ensures { OnOk result (edits.new.items ≡ edits.old.items ++ first_and_from block_size stream
        (record_stream_text kept change.now.records.now)
        (HEADER_BYTES + change.now.old.now.bytes)) }
{
    let end = HEADER_BYTES + change.old.bytes();
    if end < block_size {
        edits.push(rest_of_records(alloc, stream, kept, change, 0)?)?;
        return Ok(());
    }
    edits.push(first_of_records(alloc, block_size, stream, kept, change)?)?;
    let at = block_start(block_size, end);
    edits.push(rest_of_records(alloc, stream, kept, change, at)?)?;
    Ok(())
}

// Where the block of a place begins.
fn block_start(block_size: u32, place: u32) -> u32
    requires { IsBlockSize block_size }
    ensures start { result ≡ block_start block_size place }
    ensures before { result ≤ place }
{
    place / block_size * block_size
}

fn first_of_records<'a>(
    alloc: Global,
    block_size: u32,
    stream: u32,
    kept: Kept,
    change: &RecordChange,
) -> Result<Edit<'a>, AllocError>
    requires { RecordsChange change.now.old.now change.now.new.now change.now.records.now }
    ensures { IfOk result (λ e. e ≡ first_block block_size stream
        (record_stream_text kept change.now.records.now)) }
{
    let offsets = change.new.offsets();
    let bytes = record_stream_first(alloc, kept, change.records, offsets, block_size)?;
    let len = HEADER_BYTES + change.new.bytes();
    Ok(Edit::new(stream, 0, bytes, &[], len))
}

fn rest_of_records<'a>(
    alloc: Global,
    stream: u32,
    kept: Kept,
    change: &RecordChange<'a, '_>,
    at: u32,
) -> Result<Edit<'a>, AllocError>
    requires change { RecordsChange change.now.old.now change.now.new.now change.now.records.now }
    requires inside { at ≤ HEADER_BYTES + length (joined change.now.records.now) }
    ensures { IfOk result (λ e. e ≡ all_from stream
        (record_stream_text kept change.now.records.now) at) }
{
    let offsets = change.new.offsets();
    let (front, rest) = record_stream_from(alloc, kept, change.records, offsets, at)?;
    let len = HEADER_BYTES + change.new.bytes();
    Ok(Edit::new(stream, at, front, rest, len))
}

// The edits of a hash stream.
#[tactic(auto, unfolding(crate::specs::Commit::hash_edits))]
fn put_hashes(
    alloc: Global,
    edits: &mut Vec<Edit>,
    block_size: u32,
    kept: Kept,
    change: &RecordChange,
) -> Result<(), AllocError>
    requires size { IsBlockSize block_size }
    requires kept { CanBeKept kept }
    requires change { RecordsChange change.now.old.now change.now.new.now change.now.records.now }
    requires hashes { change.now.hashes.now ≡ hashes_of change.now.records.now }
    ensures { OnOk result (edits.new.items ≡ edits.old.items ++ hash_edits block_size
        change.now.fresh change.now.old.now kept change.now.records.now) }
{
    if change.fresh {
        edits.push(rest_of_hashes(alloc, kept, change, 0)?)?;
    } else if change.old.count() < change.new.count() {
        let at = block_start(block_size, KEY_BYTES * change.old.count());
        edits.push(rest_of_hashes(alloc, kept, change, at)?)?;
    }
    Ok(())
}

fn rest_of_hashes<'a>(
    alloc: Global,
    kept: Kept,
    change: &RecordChange,
    at: u32,
) -> Result<Edit<'a>, AllocError>
    requires kept { CanBeKept kept }
    requires change { RecordsChange change.now.old.now change.now.new.now change.now.records.now }
    requires hashes { change.now.hashes.now ≡ hashes_of change.now.records.now }
    requires whole { at % KEY_BYTES ≡ 0 }
    requires inside { at ≤ KEY_BYTES * length change.now.records.now }
    ensures { IfOk result (λ e. e ≡ all_from kept.hash_stream
        (hash_text change.now.records.now kept.buckets) at) }
{
    let offsets = change.new.offsets();
    let bytes = hash_text_from(
        alloc,
        change.records,
        change.hashes,
        kept.buckets,
        offsets,
        at,
    )?;
    let len = KEY_BYTES * change.new.count() + offsets.len() as u32;
    Ok(Edit::new(u32::from(kept.hash_stream), at, bytes, &[], len))
}

// The edits of the stream of names.
#[tactic(auto, unfolding(crate::specs::Commit::names_edits))]
fn put_names(
    alloc: Global,
    edits: &mut Vec<Edit>,
    block_size: u32,
    stream: u32,
    old: &Base,
    table: &NamesTable,
) -> Result<(), AllocError>
    requires size { IsBlockSize block_size }
    requires base { old.now.name_bytes ≤ bytes_of table.now.names }
    ensures { OnOk result (edits.new.items ≡ edits.old.items
        ++ names_edits block_size old.now.fresh stream old.now.name_bytes table.now) }
{
    if old.is_fresh() {
        edits.push(rest_of_names(alloc, stream, table, 0)?)?;
    } else if old.name_bytes() < table.bytes() {
        put_grown_names(alloc, edits, block_size, stream, old.name_bytes(), table)?;
    }
    Ok(())
}

// Of the stream of names where names came.
fn put_grown_names(
    alloc: Global,
    edits: &mut Vec<Edit>,
    block_size: u32,
    stream: u32,
    old_bytes: u32,
    table: &NamesTable,
) -> Result<(), AllocError>
    requires size { IsBlockSize block_size }
    requires base { old_bytes ≤ bytes_of table.now.names }
    ensures { OnOk result (edits.new.items ≡ edits.old.items ++ first_and_from block_size stream
        (names_text table.now.version table.now.names) (names.HEADER_BYTES + old_bytes)) }
{
    let _ = table.bytes();
    let end = names_table::HEADER_BYTES + old_bytes;
    if end < block_size {
        edits.push(rest_of_names(alloc, stream, table, 0)?)?;
        return Ok(());
    }
    edits.push(first_of_names(alloc, block_size, stream, table)?)?;
    let at = block_start(block_size, end);
    edits.push(rest_of_names(alloc, stream, table, at)?)?;
    Ok(())
}

fn first_of_names<'a>(
    alloc: Global,
    block_size: u32,
    stream: u32,
    table: &NamesTable,
) -> Result<Edit<'a>, AllocError>
    requires { block_size ≤ names.HEADER_BYTES + bytes_of table.now.names }
    ensures { IfOk result (λ e. e ≡ first_block block_size stream
        (names_text table.now.version table.now.names)) }
{
    let bytes = table.write_names_first(alloc, block_size)?;
    Ok(Edit::new(stream, 0, bytes, &[], table.text_len()))
}

fn rest_of_names<'a>(
    alloc: Global,
    stream: u32,
    table: &NamesTable,
    at: u32,
) -> Result<Edit<'a>, AllocError>
    requires { at ≤ names.HEADER_BYTES + bytes_of table.now.names }
    ensures { IfOk result (λ e. e ≡ all_from stream
        (names_text table.now.version table.now.names) at) }
{
    let bytes = table.write_names_from(alloc, at)?;
    Ok(Edit::new(stream, at, bytes, &[], table.text_len()))
}
