ghost use Rattle.std.specs.Prelude.{◌≡◌, ◌≤◌, ◌<◌, ◌+◌, ◌-◌, ◌^◌, ◌↔◌, ◌++◌, [], ◌∷◌, get_or, length, slice_get, OnOk, OnErr};
ghost use Rattle.std.specs.Option.{option_copied};
ghost use Rattle.names_table.specs.Names.{IsName, bytes_of, name_from};
ghost use Rattle.names_table.specs.Strings.{AreStrings, EndsAt, names_cut, strings_of};

use std::alloc::{AllocError, Global};
use std::marker::Model;

/// Names in one vector of bytes, each with a NUL behind it, and the offsets at which they begin:
/// the first at 1, behind the NUL of the empty name. Equal and empty ones may be among them.
#[derive(Drop)]
pub(crate) struct NameList {
    strings: Vec<u8>,
    starts: Vec<u32>,
}

impl Model for NameList {
    ghost use Rattle.std.specs.Prelude.{List, ℕ};
    ghost use Rattle.names_table.specs.Strings.{AreStrings, names_cut};

    ghost Value = { List (List ℕ) };

    ghost view = { λ t. names_cut t.strings.items };

    ghost invariant = { λ t. AreStrings t.strings.items t.starts.items };
}

impl NameList {
    pub(crate) fn new(alloc: Global) -> NameList
        ensures { result ≡ [] }
    {
        NameList {
            strings: Vec::new(alloc),
            starts: Vec::new(alloc),
        }
    }

    /// Appends a name, whatever names there are.
    pub(crate) fn push(&mut self, name: &[u8]) -> Result<(), AllocError>
        requires name { IsName name.now }
        requires room { bytes_of self.old + length name.now + 1 < 2 ^ 32 }
        ensures ok { OnOk result (self.new ≡ self.old ++ name.now ∷ []) }
        ensures err { OnErr result (self.new ≡ self.old) }
    {
        let start = self.bytes();
        self.starts.reserve(1)?;
        self.strings.reserve(name.len() + 1)?;
        self.strings.extend_from_slice(name).unwrap();
        self.strings.push(0).unwrap();
        self.starts.push(start).unwrap();
        Ok(())
    }

    /// The name that begins at an offset.
    pub(crate) fn get(&self, offset: u32) -> Option<&[u8]>
        ensures { option_copied result ≡ name_from 1 self.now offset }
    {
        name_at(&self.strings, &self.starts, offset)
    }

    /// The name at a position, counted from 0.
    pub(crate) fn name(&self, position: u32) -> Option<&[u8]>
        ensures { option_copied result ≡ slice_get self.now position }
    {
        name_in(&self.strings, &self.starts, position as usize)
    }

    /// The names, each with a NUL behind it.
    pub(crate) fn strings(&self) -> &[u8]
        ensures strings { result.now ≡ strings_of self.now }
        ensures bytes { length result.now + 1 ≡ bytes_of self.now }
    {
        &self.strings
    }

    pub(crate) fn len(&self) -> u32
        ensures { result ≡ length self.now }
    {
        self.starts.len() as u32
    }

    /// How many bytes the names take, with a NUL behind each and one before all.
    pub(crate) fn bytes(&self) -> u32
        ensures { result ≡ bytes_of self.now }
    {
        self.strings.len() as u32 + 1
    }
}

// The name that begins at an offset.
fn name_at<'a>(strings: &'a [u8], starts: &[u32], offset: u32) -> Option<&'a [u8]>
    requires { AreStrings strings.now starts.now }
    ensures { option_copied result ≡ name_from 1 (names_cut strings.now) offset }
{
    match starts.binary_search(&offset) {
        Ok(place) => name_in(strings, starts, place),
        Err(_) => None,
    }
}

// The name at a place.
fn name_in<'a>(strings: &'a [u8], starts: &[u32], place: usize) -> Option<&'a [u8]>
    requires { AreStrings strings.now starts.now }
    ensures { option_copied result ≡ slice_get (names_cut strings.now) place }
{
    if place >= starts.len() {
        return None;
    }
    let start = starts[place] as usize - 1;
    let end = end_at(strings, starts, place);
    Some(&strings[start..end])
}

// Where the name at a place ends among the strings: before its NUL.
fn end_at(strings: &[u8], starts: &[u32], place: usize) -> usize
    requires strings { AreStrings strings.now starts.now }
    requires there { place < length starts.now }
    ensures order { get_or starts.now place 0 ≤ result + 1 }
    ensures within { result ≤ length strings.now }
    ensures text { EndsAt strings.now starts.now place result }
{
    match starts.get(place + 1) {
        Some(next) => *next as usize - 2,
        None => strings.len() - 1,
    }
}
