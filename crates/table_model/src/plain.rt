ghost use Rattle.std.specs.Prelude.{◌≡◌, ◌≢◌, ◌≤◌, ◌<◌, ◌^◌, ◌++◌, ◌∷◌, [], OnErr, OnOk, length};
ghost use Rattle.std.specs.Option.{option_copied};
ghost use Rattle.srv_edge.specs.declared.limit.TheConstants.{MOST_RECORDS, RECORD_BYTES};
ghost use Rattle.srv_edge.specs.declared.space.TheConstants as spaces;
ghost use Rattle.record_table.specs.Table.{WithinLimits, record_in};
ghost use Rattle.names_table.specs.Names.{IsName, bytes_of, name_in};
ghost use Rattle.table_model.specs.Tables.{empty_tables, table_within};
ghost use Rattle.table_model.specs.Plain.{AddsLeaf, AddsToList, AddsToNames, AnswersCall, BringsName, Copies};

use crate::add::number_of;
use crate::call::{Call, Outcome};
use crate::search::{bytes_of, name_at, offset_of, place_of};
use index_fields::first_missing;
use leaf_grammar::{Space, check};
use record_table::FIRST_INDEX;
use srv_edge::{Limits, RecordList, Refusal, Text, limit, space};
use std::alloc::{AllocError, Global};
use std::marker::Model;

/// The one-thread table over plain lists, each searched from its front: slow, to compare others
/// with.
#[derive(Drop)]
pub struct PlainTable {
    alloc: Global,
    limits: Limits,
    types: RecordList,
    items: RecordList,
    names: Vec<Text>,
}

impl Model for PlainTable {
    ghost use Rattle.table_model.specs.Tables.{Tables, tables_within};
    ghost use Rattle.table_model.specs.Plain.{AreKept};

    ghost Value = { Tables };

    ghost view = { λ t. tables_within t.limits t.types t.items t.names.items };

    ghost invariant = { λ t. AreKept t.limits t.types t.items t.names.items };
}

impl PlainTable {
    /// Empty tables. It takes no memory; what is added later comes from this allocator.
    pub fn new(alloc: Global, limits: Limits) -> PlainTable
        ensures { result ≡ empty_tables limits }
    {
        PlainTable {
            alloc,
            limits,
            types: RecordList::new(alloc),
            items: RecordList::new(alloc),
            names: Vec::new(alloc),
        }
    }

    /// Answers a call. An answer's bytes are a copy.
    pub fn answer(&mut self, call: &Call) -> Result<Outcome, Refusal>
        requires name { BringsName call.now }
        ensures { AnswersCall self.old call.now result self.new }
    {
        let types = self.types.len();
        let items = self.items.len();
        match call {
            Call::AddType(record) => {
                let record = record.bytes();
                add_record(
                    Space::Types,
                    &mut self.types,
                    self.limits,
                    types,
                    items,
                    record,
                )
            }
            Call::AddItem(record) => {
                let record = record.bytes();
                add_record(
                    Space::Items,
                    &mut self.items,
                    self.limits,
                    types,
                    items,
                    record,
                )
            }
            Call::AddName(name) => add_name(self.alloc, &mut self.names, self.limits, name.bytes()),
            Call::GetType(index) => get_record(self.alloc, &self.types, space::TYPES, *index),
            Call::GetItem(index) => get_record(self.alloc, &self.items, space::ITEMS, *index),
            Call::GetName(offset) => get_name(self.alloc, &self.names, *offset),
            Call::Counts => Ok(Outcome::Counts(types, items, self.names.len() as u32)),
        }
    }
}

// Judges a record and its fields, where there are so many types and items, and adds it.
fn add_record(
    space: Space,
    list: &mut RecordList,
    limits: Limits,
    types: u32,
    items: u32,
    bytes: &[u8],
) -> Result<Outcome, Refusal>
    requires types { types ≤ MOST_RECORDS }
    requires items { items ≤ MOST_RECORDS }
    requires kept { WithinLimits (table_within limits list.old) }
    ensures added { AddsToList limits space types items list.old bytes.now result list.new }
    ensures kept { WithinLimits (table_within limits list.new) }
{
    if let Err(wrong) = check(space, bytes) {
        return Err(Refusal::Malformed {
            at: wrong.at,
            what: wrong.what,
        });
    }
    if let Some((missing, index)) = first_missing(space, bytes, types, items) {
        return Err(Refusal::NotGiven {
            space: number_of(missing),
            index,
        });
    }
    Ok(Outcome::Index(add_leaf(list, limits, bytes)?))
}

// The index of the first equal record, or the record appended.
fn add_leaf(list: &mut RecordList, limits: Limits, bytes: &[u8]) -> Result<u32, Refusal>
    requires kept { WithinLimits (table_within limits list.old) }
    requires longest { length bytes.now ≤ RECORD_BYTES }
    ensures added { AddsLeaf limits list.old bytes.now result list.new }
    ensures kept { WithinLimits (table_within limits list.new) }
{
    if let Some(place) = place_of(list, bytes) {
        return Ok(FIRST_INDEX + place);
    }
    if list.len() >= limits.records {
        return Err(Refusal::Full {
            which: limit::RECORDS,
            needed: limits.records,
        });
    }
    let needed = list.joined().len() as u32 + bytes.len() as u32;
    if needed > limits.bytes {
        return Err(Refusal::Full {
            which: limit::BYTES,
            needed,
        });
    }
    let index = FIRST_INDEX + list.len();
    match list.push(bytes) {
        Ok(()) => Ok(index),
        Err(_) => Err(Refusal::OutOfMemory),
    }
}

// The offset of the first equal name, or the name appended.
fn add_name(
    alloc: Global,
    names: &mut Vec<Text>,
    limits: Limits,
    name: &[u8],
) -> Result<Outcome, Refusal>
    requires name { IsName name.now }
    requires kept { bytes_of names.old.items ≤ limits.name_bytes }
    ensures added { AddsToNames limits names.old.items name.now result names.new.items }
    ensures kept { bytes_of names.new.items ≤ limits.name_bytes }
{
    if name.is_empty() {
        return Ok(Outcome::Index(0));
    }
    if let Some(offset) = offset_of(names, name) {
        return Ok(Outcome::Index(offset));
    }
    let offset = bytes_of(names);
    let needed = offset + name.len() as u32 + 1;
    if needed > limits.name_bytes {
        return Err(Refusal::Full {
            which: limit::NAMES,
            needed,
        });
    }
    match push_name(alloc, names, name) {
        Ok(()) => Ok(Outcome::Index(offset)),
        Err(_) => Err(Refusal::OutOfMemory),
    }
}

// Appends a copy of a name.
fn push_name(alloc: Global, names: &mut Vec<Text>, name: &[u8]) -> Result<(), AllocError>
    ensures ok { OnOk result (names.new.items ≡ names.old.items ++ name.now ∷ []) }
    ensures err { OnErr result (names.new.items ≡ names.old.items) }
{
    names.push(Text::new(name.to_vec(alloc)?))?;
    Ok(())
}

// The record at an index, whatever the limits.
fn get_record(alloc: Global, list: &RecordList, space: u8, index: u32) -> Result<Outcome, Refusal>
    ensures { Copies (record_in list.now index) (Refusal.NotGiven space index) result }
{
    let missing = Refusal::NotGiven { space, index };
    if index < FIRST_INDEX {
        return Err(missing);
    }
    copy_of(alloc, list.get(index - FIRST_INDEX), missing)
}

// The name that begins at an offset, whatever the limits: the empty one at 0.
fn get_name(alloc: Global, names: &[Text], offset: u32) -> Result<Outcome, Refusal>
    requires { bytes_of names.now < 2 ^ 32 }
    ensures { Copies (name_in names.now offset) (Refusal.NotGiven spaces.NAMES offset) result }
{
    let missing = Refusal::NotGiven {
        space: space::NAMES,
        index: offset,
    };
    let name = if offset == 0 {
        Some(&[][..])
    } else {
        name_at(names, offset)
    };
    copy_of(alloc, name, missing)
}

// A copy of what was found, or the refusal where nothing was.
fn copy_of(alloc: Global, found: Option<&[u8]>, missing: Refusal) -> Result<Outcome, Refusal>
    requires { missing ≢ Refusal.OutOfMemory }
    ensures { Copies (option_copied found.entry) missing result }
{
    match found {
        Some(bytes) => match bytes.to_vec(alloc) {
            Ok(bytes) => Ok(Outcome::Bytes(Text::new(bytes))),
            Err(_) => Err(Refusal::OutOfMemory),
        },
        None => Err(missing),
    }
}
