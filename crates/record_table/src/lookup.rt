ghost use Rattle.std.specs.Prelude.{◌≡◌, ◌≤◌, ◌<◌, ◌+◌, ◌^◌, IfSome, length, slice_get};
ghost use Rattle.std.specs.Option.{option_map};
ghost use Rattle.std.specs.Str.{bytes_eq};
ghost use Rattle.record_table.specs.Buckets.{hashes_of, in_bucket};
ghost use Rattle.record_table.specs.Table.{index_at, place_of};
ghost use Rattle.type_hash.specs.Record.{record_hash};

use crate::first::FIRST_INDEX;
use chain_index::Chains;
use srv_edge::{RecordList, Steps};
use std::sync::ledger::Ledger;

/// The place of the first record that equals this one, which has this hash. The records of a chain
/// fall, so it is the last that the walk meets.
pub fn find_in<L: Ledger>(
    records: &RecordList,
    chains: &Chains,
    hash: u32,
    bytes: &[u8],
    steps: &mut Steps<L>,
) -> Option<u32>
    requires count { length records.now ≤ 2 ^ 23 }
    requires hashes { chains.now.hashes ≡ hashes_of records.now }
    requires hash { hash ≡ record_hash bytes.now }
    requires steps { steps.old < 2 ^ 62 }
    ensures place { result ≡ place_of records.now bytes.now }
    ensures bound { IfSome result (λ p. p < length records.now) }
    ensures cost { steps.new ≤ steps.old + in_bucket records.now bytes.now }
{
    let mut found = None;
    let mut at = chains.head(hash);
    while let Some(number) = at {
        steps.tick();
        if is_at(records, chains, number, hash, bytes) {
            found = Some(number);
        }
        at = chains.next(number);
    }
    found
}

// Whether the record of a number is this one, which has this hash. Its bytes are read only where its
// hash is the same.
fn is_at(records: &RecordList, chains: &Chains, number: u32, hash: u32, bytes: &[u8]) -> bool
    requires there { number < length records.now }
    requires hashes { chains.now.hashes ≡ hashes_of records.now }
    requires hash { hash ≡ record_hash bytes.now }
    ensures { IfSome (slice_get records.now number) (λ r. result ≡ bytes_eq r bytes.now) }
{
    if chains.hash_of(number) != hash {
        return false;
    }
    match records.get(number) {
        Some(record) => record == bytes,
        None => false,
    }
}

/// The index of the record at a place.
pub fn index_of_place(place: Option<u32>) -> Option<u32>
    requires { IfSome place (λ p. p < 2 ^ 23) }
    ensures { result ≡ option_map index_at place }
{
    Some(FIRST_INDEX + place?)
}
