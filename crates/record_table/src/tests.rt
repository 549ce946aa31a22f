//! Many records, and equal ones.
ghost use Rattle.std.specs.Prelude.{◌≡◌, ◌≤◌, ◌<◌, ◌^◌, length};
ghost use Rattle.record_table.specs.Table.{IsRecord};

use super::*;
use srv_edge::{Limits, Steps};
use std::alloc::{AllocError, Global};
use std::marker::Brand;
use std::sync::ledger::{Blank, Ledger};
use std::test::Fail;
use type_hash::of_record;

// A modifier of this type.
fn modifier(number: u32) -> [u8; 12]
    ensures record { IsRecord result }
    ensures length { length result ≡ 12 }
{
    let [a, b, c, d] = number.to_le_bytes();
    [0x0A, 0, 0x01, 0x10, a, b, c, d, 1, 0, 0xF2, 0xF1]
}

fn add<L: Ledger>(table: &mut RecordTable, number: u32, blank: Blank) -> Result<u32, AddFault>
    requires name { blank.name ≡ L.name }
    requires parts { blank.parts ≡ L.parts }
    requires some { 0 < L.parts }
{
    let mut steps = Steps::<L>::open(blank);
    table.add(&modifier(number), &mut steps)
}

fn find<L: Ledger>(table: &RecordTable, number: u32, blank: Blank) -> Option<u32>
    requires name { blank.name ≡ L.name }
    requires parts { blank.parts ≡ L.parts }
    requires some { 0 < L.parts }
{
    let mut steps = Steps::<L>::open(blank);
    table.find(&modifier(number), &mut steps)
}

// Each record is found by its hash, and no search goes over all of them.
#[test]
fn many_records_by_their_hashes(rt: HostRuntime) -> Result<(), Fail> {
    const MANY: u32 = 524_288;
    let mut table = RecordTable::new(rt.alloc(), Limits::STANDARD)?;
    for number in 0..MANY {
        let index = add::<Brand>(&mut table, number, Blank::new(1));
        assert_eq!(rt; index, Ok(FIRST_INDEX + number));
    }
    for number in 0..MANY {
        let index = find::<Brand>(&table, number, Blank::new(1));
        assert_eq!(rt; index, Some(FIRST_INDEX + number));
    }
    assert_eq!(rt; find::<Brand>(&table, MANY, Blank::new(1)), None);
    assert_eq!(rt; (table.len(), table.bytes()), (MANY, MANY * 12));
    Ok(())
}

// So many records appended, of which equal ones come again after so many.
fn repeated(alloc: Global, count: u32, period: u32) -> Result<RecordTable, AllocError>
    requires count { count ≤ 2 ^ 20 }
    requires period { 0 < period }
{
    let mut table = RecordTable::new(alloc, Limits::STANDARD)?;
    for number in 0..count {
        table.append(&modifier(number % period))?;
    }
    Ok(table)
}

// Of equal records far apart the first is found, and none of them is added again.
#[test]
fn least_of_equal_records(rt: HostRuntime) -> Result<(), Fail> {
    let mut table = repeated(rt.alloc(), 10_000, 4_999)?;
    for number in [0, 1, 2_500, 4_998] {
        let found = find::<Brand>(&table, number, Blank::new(1));
        let added = add::<Brand>(&mut table, number, Blank::new(1));
        assert_eq!(rt;
            (found, added),
            (Some(FIRST_INDEX + number), Ok(FIRST_INDEX + number))
        );
    }
    assert_eq!(rt; table.records().len(), 10_000);
    let added = add::<Brand>(&mut table, 4_999, Blank::new(1));
    assert_eq!(rt; (added, table.len()), (Ok(FIRST_INDEX + 10_000), 10_001));
    assert_eq!(rt; table.hashes().last(), Some(&of_record(&modifier(4_999))));
    Ok(())
}
