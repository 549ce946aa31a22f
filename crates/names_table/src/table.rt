ghost use Rattle.std.specs.Prelude.{◌≡◌, ◌≤◌, ◌+◌, ◌^◌, ◌↔◌, ◌⊎◌, ◌++◌, [], ◌∷◌, Err, None, Ok, Some, drop, length, slice_get, take, IfOk, IfSome, IsTrue, OnErr, OnOk};
ghost use Rattle.std.specs.Option.{option_copied};
ghost use Rattle.srv_edge.specs.declared.limit.TheConstants.{NAME_BYTES};
ghost use Rattle.names_table.specs.Names.{Adds, HasRoomFor, IsName, IsNamesTable, Names, bytes_of, name_at, offset_of};
ghost use Rattle.names_table.specs.Reading.{reading};
ghost use Rattle.names_table.specs.Text.{names_text};
ghost use Rattle.names_table.specs.declared.read.TheConstants.{HEADER_BYTES};

use crate::fault::NameFault;
use crate::list::NameList;
use crate::write::{names_text_first, names_text_from, names_text_len};
use indexmap::IndexMap;
use srv_edge::Limits;
use std::alloc::{AllocError, Global};
use std::hash::RandomState;
use std::marker::Model;

/// The names of one file, each found by its text and by its offset. A file that others wrote may
/// have equal and empty ones; each text is then found where it first stands.
#[derive(Drop)]
pub struct NamesTable {
    max_bytes: u32,
    version: u32,
    list: NameList,
    offsets: IndexMap<Vec<u8>, u32, RandomState>,
}

impl Model for NamesTable {
    ghost use Rattle.names_table.specs.Entries.{FindsFirst};
    ghost use Rattle.names_table.specs.Names.{IsNamesTable, Names};

    ghost Value = { Names };

    ghost view = { λ t. record { max_bytes = t.max_bytes; version = t.version; names = t.list } };

    ghost invariant = { λ t. IsNamesTable (record
        { max_bytes = t.max_bytes; version = t.version; names = t.list })
        × FindsFirst t.list t.offsets.entries };
}

impl NamesTable {
    /// An empty table. The version is that of the hashes with which the stream is written, 1 or 2.
    /// The keys are those by which names are found in memory: where they are random, no one can
    /// choose names that collide.
    pub fn new(
        alloc: Global,
        keys: RandomState,
        limits: Limits,
        version: u32,
    ) -> Result<NamesTable, AllocError>
        requires { (version ≡ 1) ⊎ (version ≡ 2) }
        ensures { IfOk result
            (λ t. t ≡ record { max_bytes = limits.name_bytes; version = version; names = [] }) }
    {
        Ok(NamesTable {
            max_bytes: limits.name_bytes,
            version,
            list: NameList::new(alloc),
            offsets: IndexMap::with_hasher(alloc, keys),
        })
    }

    /// The offset of an equal name, or the name appended. Only a name that is new and passes no
    /// limit asks for memory.
    pub fn add(&mut self, name: &[u8]) -> Result<u32, NameFault>
        requires { IsName name.now }
        ensures { Adds self.old name.now result self.new }
    {
        if let Some(offset) = self.find(name) {
            return Ok(offset);
        }
        let offset = self.bytes();
        let needed = offset + name.len() as u32 + 1;
        if needed > self.max_bytes {
            return Err(NameFault::Full { needed });
        }
        match self.append_new(name) {
            Ok(()) => Ok(offset),
            Err(_) => Err(NameFault::OutOfMemory),
        }
    }

    /// Appends a name of an opened file at its place, whatever names there are. Equal and empty
    /// ones are kept, and an add finds the first of them.
    pub fn append(&mut self, name: &[u8]) -> Result<(), AllocError>
        requires name { IsName name.now }
        requires room { HasRoomFor self.old name.now }
        ensures ok { OnOk result
            (self.new ≡ record self.old { names = self.old.names ++ name.now ∷ [] }) }
        ensures err { OnErr result (self.new ≡ self.old) }
    {
        if self.find(name).is_some() {
            return self.list.push(name);
        }
        self.append_new(name)
    }

    // Appends a name that is not there. All memory is taken before anything changes.
    fn append_new(&mut self, name: &[u8]) -> Result<(), AllocError>
        requires name { IsName name.now }
        requires new { offset_of self.old name.now ≡ None }
        requires room { HasRoomFor self.old name.now }
        ensures ok { OnOk result
            (self.new ≡ record self.old { names = self.old.names ++ name.now ∷ [] }) }
        ensures err { OnErr result (self.new ≡ self.old) }
    {
        let offset = self.list.bytes();
        let key = name.to_vec(*self.offsets.allocator())?;
        self.offsets.reserve(1)?;
        self.list.push(name)?;
        self.offsets.insert(key, offset).unwrap();
        Ok(())
    }

    // Where an equal name begins.
    fn find(&self, name: &[u8]) -> Option<u32>
        ensures { result ≡ offset_of self.now name.now }
    {
        if name.is_empty() {
            return Some(0);
        }
        self.offsets.get(name).copied()
    }

    /// The name that begins at an offset: the empty one at 0.
    pub fn get(&self, offset: u32) -> Option<&[u8]>
        ensures name { option_copied result ≡ name_at self.now offset }
        ensures length { IfSome result (λ name. length name.now ≤ NAME_BYTES) }
    {
        if offset == 0 {
            return Some(&[]);
        }
        self.list.get(offset)
    }

    /// The name at a position, counted from 0.
    pub fn name(&self, position: u32) -> Option<&[u8]>
        ensures { option_copied result ≡ slice_get self.now.names position }
    {
        self.list.name(position)
    }

    /// The text of the stream `/names` with the names of this table.
    pub fn write_names(&self, alloc: Global) -> Result<Vec<u8>, AllocError>
        ensures text { IfOk result
            (λ text. text.items ≡ names_text self.now.version self.now.names) }
        // What is written is read again as this table.
        ensures read { IfOk result
            (λ text. reading self.now.max_bytes text.items ≡ Ok self.now) }
    {
        names_text_from(alloc, self.version, &self.list, 0)
    }

    /// How many bytes that text has.
    pub fn text_len(&self) -> u32
        ensures { result ≡ length (names_text self.now.version self.now.names) }
    {
        names_text_len(&self.list)
    }

    /// The same text from a place on that is not behind the strings.
    pub fn write_names_from(&self, alloc: Global, at: u32) -> Result<Vec<u8>, AllocError>
        requires { at ≤ HEADER_BYTES + bytes_of self.now.names }
        ensures { IfOk result
            (λ text. text.items ≡ drop at (names_text self.now.version self.now.names)) }
    {
        names_text_from(alloc, self.version, &self.list, at)
    }

    /// So many of the first bytes of that text, none of which stands behind the strings. No name
    /// is hashed.
    pub fn write_names_first(&self, alloc: Global, count: u32) -> Result<Vec<u8>, AllocError>
        requires { count ≤ HEADER_BYTES + bytes_of self.now.names }
        ensures { IfOk result
            (λ text. text.items ≡ take count (names_text self.now.version self.now.names)) }
    {
        names_text_first(alloc, self.version, &self.list, count)
    }

    /// How many names there are, the empty one at 0 not among them.
    pub fn len(&self) -> u32
        ensures { result ≡ length self.now.names }
    {
        self.list.len()
    }

    pub fn is_empty(&self) -> bool
        ensures { IsTrue result ↔ (self.now.names ≡ []) }
    {
        self.len() == 0
    }

    /// How many bytes the names take, with a NUL behind each and one before all.
    pub fn bytes(&self) -> u32
        ensures bytes { result ≡ bytes_of self.now.names }
        ensures kept { IsNamesTable self.now }
    {
        self.list.bytes()
    }
}
