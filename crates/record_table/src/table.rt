ghost use Rattle.std.specs.Prelude.{◌≡◌, ◌≤◌, ◌<◌, ◌+◌, ◌^◌, ◌↔◌, ◌++◌, [], ◌∷◌, length, All, IfOk, IfSome, IsTrue, OnErr, OnOk};
ghost use Rattle.std.specs.Option.{option_copied};
ghost use Rattle.record_table.specs.Buckets.{hashes_of, in_bucket};
ghost use Rattle.record_table.specs.Table.{Adds, HasRoomFor, IsKept, IsRecord, appended, bytes_in, index_of, record_at};
ghost use Rattle.srv_edge.specs.Records.{joined};
ghost use Rattle.type_hash.specs.Record.{record_hash};

use crate::fault::AddFault;
use crate::first::FIRST_INDEX;
use crate::lookup::{find_in, index_of_place};
use chain_index::Chains;
use srv_edge::{Limits, RecordList, Steps};
use std::alloc::{AllocError, Global};
use std::marker::Model;
use std::sync::ledger::Ledger;
use type_hash::of_record;

/// The records of one space. Each is found by its hash.
#[derive(Drop)]
pub struct RecordTable {
    max_records: u32,
    max_bytes: u32,
    records: RecordList,
    chains: Chains,
}

impl Model for RecordTable {
    ghost use Rattle.std.specs.Prelude.{◌≡◌};
    ghost use Rattle.record_table.specs.Buckets.{hashes_of};
    ghost use Rattle.record_table.specs.Table.{IsKept, Table};

    ghost Value = { Table };

    ghost view = { λ t. record
        { max_records = t.max_records; max_bytes = t.max_bytes; records = t.records } };

    ghost invariant = { λ t. IsKept
        (record { max_records = t.max_records; max_bytes = t.max_bytes; records = t.records })
        × (t.chains.hashes ≡ hashes_of t.records) };
}

impl RecordTable {
    /// An empty table.
    pub fn new(alloc: Global, limits: Limits) -> Result<RecordTable, AllocError>
        ensures { IfOk result
            (λ t. t ≡ record
            { max_records = limits.records; max_bytes = limits.bytes; records = [] }) }
    {
        Ok(RecordTable {
            max_records: limits.records,
            max_bytes: limits.bytes,
            records: RecordList::new(alloc),
            chains: Chains::new(alloc)?,
        })
    }

    /// A table of these records, in their order, equal ones among them. Beside the list it takes
    /// memory for the chains alone.
    pub fn from_records(
        alloc: Global,
        limits: Limits,
        records: RecordList,
    ) -> Result<RecordTable, AllocError>
        requires all { All IsRecord records }
        requires few { length records ≤ limits.records }
        requires short { length (joined records) ≤ limits.bytes }
        ensures { IfOk result (λ t. t ≡ record
            { max_records = limits.records; max_bytes = limits.bytes; records = records }) }
    {
        let chains = chains_of(alloc, &records)?;
        Ok(RecordTable {
            max_records: limits.records,
            max_bytes: limits.bytes,
            records,
            chains,
        })
    }

    /// The least index of an equal record. A step is one record that the search meets; its bytes are
    /// compared where its hash is the same.
    pub fn find<L: Ledger>(&self, bytes: &[u8], steps: &mut Steps<L>) -> Option<u32>
        requires { steps.old < 2 ^ 62 }
        ensures index { result ≡ index_of self.now bytes.now }
        ensures cost { steps.new ≤ steps.old + in_bucket self.now.records bytes.now }
    {
        let hash = of_record(bytes);
        let place = find_in(&self.records, &self.chains, hash, bytes, steps);
        index_of_place(place)
    }

    /// The least index of an equal record, or the record appended. Only a record that is new and
    /// passes no limit asks for memory.
    pub fn add<L: Ledger>(&mut self, bytes: &[u8], steps: &mut Steps<L>) -> Result<u32, AddFault>
        requires record { IsRecord bytes.now }
        requires steps { steps.old < 2 ^ 62 }
        ensures added { Adds self.old bytes.now result self.new }
        ensures cost { steps.new ≤ steps.old + in_bucket self.old.records bytes.now }
    {
        let hash = of_record(bytes);
        self.add_hashed(bytes, hash, steps)
    }

    /// The same as `add`, with a hash that was computed before.
    pub fn add_hashed<L: Ledger>(
        &mut self,
        bytes: &[u8],
        hash: u32,
        steps: &mut Steps<L>,
    ) -> Result<u32, AddFault>
        requires record { IsRecord bytes.now }
        requires hash { hash ≡ record_hash bytes.now }
        requires steps { steps.old < 2 ^ 62 }
        ensures added { Adds self.old bytes.now result self.new }
        ensures cost { steps.new ≤ steps.old + in_bucket self.old.records bytes.now }
    {
        let place = find_in(&self.records, &self.chains, hash, bytes, steps);
        if let Some(index) = index_of_place(place) {
            return Ok(index);
        }
        if self.records.len() >= self.max_records {
            return Err(AddFault::Records);
        }
        let needed = self.bytes() + bytes.len() as u32;
        if needed > self.max_bytes {
            return Err(AddFault::Bytes { needed });
        }
        let index = FIRST_INDEX + self.records.len();
        match keep(&mut self.records, &mut self.chains, bytes, hash) {
            Ok(()) => Ok(index),
            Err(_) => Err(AddFault::OutOfMemory),
        }
    }

    /// Appends a record, also where an equal one is there.
    pub fn append(&mut self, bytes: &[u8]) -> Result<(), AllocError>
        requires record { IsRecord bytes.now }
        requires room { HasRoomFor self.old bytes.now }
        ensures ok { OnOk result (self.new ≡ appended self.old bytes.now) }
        ensures err { OnErr result (self.new ≡ self.old) }
    {
        let hash = of_record(bytes);
        keep(&mut self.records, &mut self.chains, bytes, hash)
    }

    /// The record at an index. It is one that a reply can carry.
    pub fn get(&self, index: u32) -> Option<&[u8]>
        ensures record { option_copied result ≡ record_at self.now index }
        ensures length { IfSome result (λ r. length r.now ≤ 65537) }
    {
        if index < FIRST_INDEX {
            return None;
        }
        self.records.get(index - FIRST_INDEX)
    }

    /// The records, in their order.
    pub fn records(&self) -> &RecordList
        ensures records { result.now ≡ self.now.records }
        ensures kept { IsKept self.now }
    {
        &self.records
    }

    /// The hashes of the records, in their order, which were computed when each was added.
    pub fn hashes(&self) -> &[u32]
        ensures { result.now ≡ hashes_of self.now.records }
    {
        self.chains.hashes()
    }

    /// How many records there are.
    pub fn len(&self) -> u32
        ensures count { result ≡ length self.now.records }
        ensures bound { result ≤ 2 ^ 23 }
    {
        self.records.len()
    }

    pub fn is_empty(&self) -> bool
        ensures { IsTrue result ↔ (self.now.records ≡ []) }
    {
        self.records.is_empty()
    }

    /// How many records there may be.
    pub fn max_records(&self) -> u32
        ensures { result ≡ self.now.max_records }
    {
        self.max_records
    }

    /// How many bytes the records have.
    pub fn bytes(&self) -> u32
        ensures { result ≡ bytes_in self.now }
    {
        self.records.joined().len() as u32
    }
}

// Chains of these records.
fn chains_of(alloc: Global, records: &RecordList) -> Result<Chains, AllocError>
    requires { length records.now ≤ 2 ^ 23 }
    ensures { IfOk result (λ c. c.hashes ≡ hashes_of records.now) }
{
    let mut chains = Chains::new(alloc)?;
    chains.reserve(records.len())?;
    for number in 0..records.len() {
        let Some(record) = records.get(number) else {
            unreachable!()
        };
        chains.link(of_record(record));
    }
    Ok(chains)
}

// The record behind the others, and in its chain. All that grows does so before anything is
// changed.
fn keep(
    records: &mut RecordList,
    chains: &mut Chains,
    bytes: &[u8],
    hash: u32,
) -> Result<(), AllocError>
    requires hashes { chains.old.hashes ≡ hashes_of records.old }
    requires hash { hash ≡ record_hash bytes.now }
    requires count { length records.old + 1 < 2 ^ 32 }
    requires room { length (joined records.old) + length bytes.now < 2 ^ 32 }
    ensures ok { OnOk result (records.new ≡ records.old ++ bytes.now ∷ []) }
    ensures err { OnErr result (records.new ≡ records.old) }
    ensures hashes { chains.new.hashes ≡ hashes_of records.new }
{
    chains.reserve(1)?;
    records.push(bytes)?;
    chains.link(hash);
    Ok(())
}
