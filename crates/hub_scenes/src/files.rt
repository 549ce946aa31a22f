//! Bytes and files for the tests of scenes.
use call_journal::{Deed, Journal, TableKind, deed_of};
use hub::Ended;
use srv_edge::{Limits, MemDevice};
use std::alloc::Global;
use std::hash::RandomState;
use std::test::Fail;
use type_store::{PdbFile, Tables};

/// A modifier of the simple type 74.
pub(crate) const R: &[u8] = b"\x0A\x00\x01\x10\x74\x00\x00\x00\x01\x00\xF2\xF1";

/// The bytes of a hexadecimal text with spaces.
pub(crate) fn bytes_of(alloc: Global, text: &str) -> Result<Vec<u8>, Fail> {
    let mut bytes = Vec::new(alloc);
    for part in text.split_whitespace() {
        bytes.extend_from_slice(&hex::decode(alloc, part)?)?;
    }
    Ok(bytes)
}

/// The words of a journal.
pub(crate) fn words_of(alloc: Global, journal: &Journal) -> Result<Vec<u64>, Fail> {
    let mut words = Vec::new(alloc);
    for i in 0..journal.len() {
        words.push(journal.entry(i).unwrap_or(0))?;
    }
    Ok(words)
}

/// What a hub leaves: the words of its journal, the last acknowledged number, and what its file then
/// opens to.
#[derive(Drop)]
pub(crate) struct Left {
    pub words: Vec<u64>,
    pub acked: u32,
    pub age: u32,
    pub types: u32,
}

impl Left {
    pub(crate) fn of(
        alloc: Global,
        keys: RandomState,
        ended: Ended<MemDevice>,
    ) -> Result<Left, Fail> {
        let Ended { book, journal, .. } = ended;
        let words = words_of(alloc, &journal)?;
        let acked = book.acked;
        let (age, tables) = reopened(alloc, keys, book.file)?;
        Ok(Left {
            words,
            acked,
            age,
            types: tables.types.len(),
        })
    }
}

// The age that a file opens to once it is closed, and its tables.
fn reopened(
    alloc: Global,
    keys: RandomState,
    file: Option<PdbFile<MemDevice>>,
) -> Result<(u32, Tables), Fail> {
    let Some(file) = file else {
        return Err(Fail::new("the file is out"));
    };
    let device = file.close();
    let bytes = device.image(device.calls(), 0, true)?;
    let again = MemDevice::new(alloc, bytes, Vec::new(alloc));
    let Ok((file, tables)) = PdbFile::open(alloc, keys, again, Limits::STANDARD) else {
        return Err(Fail::new("no file"));
    };
    Ok((file.age(), tables))
}

/// How many types there were where the last commit of these words began.
pub(crate) fn types_at_last_begin(words: &[u64]) -> u32 {
    let mut types = 0;
    let mut begun = 0;
    for word in words {
        match deed_of(*word) {
            Some(
                Deed::Added {
                    table: TableKind::Types,
                    at,
                },
            ) => types = at.saturating_sub(0xFFF).max(types),
            Some(Deed::Began { .. }) => begun = types,
            _ => (),
        }
    }
    begun
}
