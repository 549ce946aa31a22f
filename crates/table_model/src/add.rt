ghost use Rattle.std.specs.Prelude.{◌≡◌, ◌≤◌, ◌<◌, IsOk};
ghost use Rattle.leaf_grammar.specs.Leaf.{leaf_of};
ghost use Rattle.record_table.specs.Table.{Adds, IsRecord};
ghost use Rattle.names_table.specs.Names.{IsName};
ghost use Rattle.srv_edge.specs.declared.limit.TheConstants.{MOST_RECORDS};
ghost use Rattle.table_model.specs.Tables.{AddsName, AddsRecord, space_number};
ghost use Rattle.type_hash.specs.Record.{record_hash};

use index_fields::first_missing;
use leaf_grammar::{Space, check};
use names_table::{NameFault, NamesTable};
use record_table::{AddFault, RecordTable};
use srv_edge::{Refusal, Steps, limit, space};
use std::marker::Brand;
use std::sync::ledger::{Blank, Ledger};
use type_hash::of_record;

/// Judges a record of a space and its fields, where there are so many types and items, and adds it
/// to the table of its space. A refused record leaves the table.
pub fn add_record(
    space: Space,
    table: &mut RecordTable,
    types: u32,
    items: u32,
    bytes: &[u8],
) -> Result<u32, Refusal>
    requires types { types ≤ MOST_RECORDS }
    requires items { items ≤ MOST_RECORDS }
    ensures { AddsRecord space types items table.old bytes.now result table.new }
{
    if let Err(wrong) = check(space, bytes) {
        return Err(Refusal::Malformed {
            at: wrong.at,
            what: wrong.what,
        });
    }
    add_leaf(space, table, types, items, bytes, of_record(bytes))
}

/// The same of a leaf, which was judged and hashed before: what is left is to judge its fields and
/// to look it up.
pub fn add_leaf(
    space: Space,
    table: &mut RecordTable,
    types: u32,
    items: u32,
    bytes: &[u8],
    hash: u32,
) -> Result<u32, Refusal>
    requires types { types ≤ MOST_RECORDS }
    requires items { items ≤ MOST_RECORDS }
    requires leaf { IsOk (leaf_of space bytes.now) }
    requires hash { hash ≡ record_hash bytes.now }
    ensures { AddsRecord space types items table.old bytes.now result table.new }
{
    if let Some((missing, index)) = first_missing(space, bytes, types, items) {
        return Err(Refusal::NotGiven {
            space: number_of(missing),
            index,
        });
    }
    match put::<Brand>(table, bytes, hash, Blank::new(1)) {
        Ok(index) => Ok(index),
        Err(AddFault::Records) => Err(Refusal::Full {
            which: limit::RECORDS,
            needed: table.max_records(),
        }),
        Err(AddFault::Bytes { needed }) => Err(Refusal::Full {
            which: limit::BYTES,
            needed,
        }),
        Err(AddFault::OutOfMemory) => Err(Refusal::OutOfMemory),
    }
}

// Puts a record of this hash into a table. Its steps are of this call alone.
fn put<L: Ledger>(
    table: &mut RecordTable,
    bytes: &[u8],
    hash: u32,
    blank: Blank,
) -> Result<u32, AddFault>
    requires record { IsRecord bytes.now }
    requires hash { hash ≡ record_hash bytes.now }
    requires name { blank.name ≡ L.name }
    requires parts { blank.parts ≡ L.parts }
    requires some { 0 < L.parts }
    ensures { Adds table.old bytes.now result table.new }
{
    let mut steps = Steps::<L>::open(blank);
    table.add_hashed(bytes, hash, &mut steps)
}

/// Adds a name. A refused name leaves the table.
pub fn add_name(names: &mut NamesTable, name: &[u8]) -> Result<u32, Refusal>
    requires { IsName name.now }
    ensures { AddsName names.old name.now result names.new }
{
    match names.add(name) {
        Ok(offset) => Ok(offset),
        Err(NameFault::Full { needed }) => Err(Refusal::Full {
            which: limit::NAMES,
            needed,
        }),
        Err(NameFault::OutOfMemory) => Err(Refusal::OutOfMemory),
    }
}

/// The number of a space in a refusal.
pub(crate) fn number_of(space: Space) -> u8
    ensures { result ≡ space_number space }
{
    match space {
        Space::Types => space::TYPES,
        Space::Items => space::ITEMS,
    }
}
