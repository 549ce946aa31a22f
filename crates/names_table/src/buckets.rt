ghost use Rattle.std.specs.Prelude.{◌≡◌, ◌≤◌, ◌<◌, ◌+◌, ◌^◌, Some, length, IfOk};
ghost use Rattle.srv_edge.specs.declared.limit.TheConstants.{MOST_NAME_BYTES};
ghost use Rattle.names_table.specs.Buckets.{IsFirstFree, Leads, bucket_count, buckets_of, free_from, name_hash, taken, with_names, with_offset};
ghost use Rattle.names_table.specs.Names.{bytes_of};

use crate::list::NameList;
use std::alloc::{AllocError, Global};
use type_hash::{string_v1, string_v2};

/// The buckets of names, each 0 or the offset of a name.
#[tactic(auto, unfolding(crate::specs::Buckets::buckets_of))]
pub(crate) fn buckets_of(
    alloc: Global,
    version: u32,
    names: &NameList,
) -> Result<Vec<u32>, AllocError>
    requires { bytes_of names.now ≤ MOST_NAME_BYTES }
    ensures buckets { IfOk result (λ buckets. buckets.items ≡ buckets_of version names.now) }
    ensures count { IfOk result
        (λ buckets. length buckets.items ≡ bucket_count (length names.now)) }
{
    let count = bucket_count(names.len()) as usize;
    let mut buckets = vec![in alloc; 0; count]?;
    let mut next = vec![in alloc; 0; count]?;
    put_names(&mut buckets, &mut next, version, names);
    Ok(buckets)
}

/// How many buckets so many names have: a quarter more than names, and two.
pub(crate) fn bucket_count(names: u32) -> u32
    requires { names ≤ MOST_NAME_BYTES }
    ensures { result ≡ bucket_count names }
{
    names + names / 4 + 2
}

// Puts the offset of each name into the buckets. There are more of them than names.
fn put_names(buckets: &mut [u32], next: &mut [u32], version: u32, names: &NameList)
    requires short { bytes_of names.now ≤ MOST_NAME_BYTES }
    requires few { length buckets.old < 2 ^ 32 }
    requires room { taken buckets.old + length names.now < length buckets.old }
    requires leads { Leads buckets.old next.old }
    ensures { buckets.new ≡ with_names version 1 names.now buckets.old }
{
    let mut i = 0;
    let mut offset = 1;
    while let Some(name) = names.name(i) {
        put_offset(buckets, next, name_hash(version, name), offset);
        offset += name.len() as u32 + 1;
        i += 1;
    }
}

// The hash of a name, by the version of the hashes.
fn name_hash(version: u32, name: &[u8]) -> u32
    ensures { result ≡ name_hash version name.now }
{
    if version == 1 {
        string_v1(name)
    } else {
        string_v2(name)
    }
}

// Puts an offset into the first bucket that is free from that of the hash on, and has it lead to the
// next.
fn put_offset(buckets: &mut [u32], next: &mut [u32], hash: u32, offset: u32)
    requires some { 0 < offset }
    requires few { length buckets.old < 2 ^ 32 }
    requires free { taken buckets.old < length buckets.old }
    requires leads { Leads buckets.old next.old }
    ensures buckets { buckets.new ≡ with_offset hash offset buckets.old }
    ensures leads { Leads buckets.new next.new }
{
    let start = hash as usize % buckets.len();
    let place = free_from(buckets, next, start);
    buckets[place] = offset;
    next[place] = place as u32 + 1;
}

// The first bucket that is free from this one on, going round. One is free.
fn free_from(buckets: &[u32], next: &mut [u32], start: usize) -> usize
    requires inside { start < length buckets.now }
    requires few { length buckets.now < 2 ^ 32 }
    requires free { taken buckets.now < length buckets.now }
    requires leads { Leads buckets.now next.old }
    ensures inside { result < length buckets.now }
    ensures first { free_from start buckets.now ≡ Some result }
    ensures leads { Leads buckets.now next.new }
{
    let place = free_behind(buckets, next, start);
    if place < buckets.len() {
        return place;
    }
    free_behind(buckets, next, 0)
}

// The first bucket that is free from one on, or how many buckets there are. The way to it becomes
// short.
fn free_behind(buckets: &[u32], next: &mut [u32], start: usize) -> usize
    requires inside { start ≤ length buckets.now }
    requires few { length buckets.now < 2 ^ 32 }
    requires leads { Leads buckets.now next.old }
    ensures first { IsFirstFree buckets.now start result }
    ensures leads { Leads buckets.now next.new }
{
    let place = follow(buckets, next, start);
    shorten(buckets, next, start, place);
    place
}

// Follows the taken buckets to the first that is free.
fn follow(buckets: &[u32], next: &[u32], start: usize) -> usize
    requires inside { start ≤ length buckets.now }
    requires leads { Leads buckets.now next.now }
    ensures { IsFirstFree buckets.now start result }
{
    let mut at = start;
    while at < buckets.len() && buckets[at] != 0 {
        at = next[at] as usize;
    }
    at
}

// Has each taken bucket on the way from one to a place lead straight to that place.
fn shorten(buckets: &[u32], next: &mut [u32], start: usize, place: usize)
    requires few { length buckets.now < 2 ^ 32 }
    requires first { IsFirstFree buckets.now start place }
    requires leads { Leads buckets.now next.old }
    ensures { Leads buckets.now next.new }
{
    let mut at = start;
    while at < buckets.len() && buckets[at] != 0 {
        let then = next[at] as usize;
        next[at] = place as u32;
        at = then;
    }
}
