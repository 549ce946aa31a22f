//! The words, bytes and files of a server that runs in memory, for tests.

use command_words::Word;
use srv_edge::{Limits, MemDevice};
use std::alloc::Global;
use std::hash::RandomState;
use std::test::Fail;
use type_store::PdbFile;

/// The words of a line, one behind each space.
pub(crate) fn words_of(alloc: Global, line: &str) -> Result<Vec<Word>, Fail> {
    let mut words = Vec::new(alloc);
    for word in line.split(' ') {
        words.push(Word::new(String::from_str(alloc, word)?))?;
    }
    Ok(words)
}

/// The bytes of a hexadecimal text with spaces.
pub(crate) fn bytes_of(alloc: Global, text: &str) -> Result<Vec<u8>, Fail> {
    let mut bytes = Vec::new(alloc);
    for part in text.split_whitespace() {
        bytes.extend_from_slice(&hex::decode(alloc, part)?)?;
    }
    Ok(bytes)
}

/// A device with these bytes, of which these calls fail.
pub(crate) fn device_with(alloc: Global, bytes: &[u8], fail: &[u32]) -> Result<MemDevice, Fail> {
    Ok(MemDevice::new(alloc, bytes.to_vec(alloc)?, fail.to_vec(alloc)?))
}

/// The bytes of a new file with blocks of 4096 bytes.
pub(crate) fn new_file(alloc: Global, keys: RandomState) -> Result<Vec<u8>, Fail> {
    let device = MemDevice::new(alloc, Vec::new(alloc), Vec::new(alloc));
    let Ok((file, _)) = PdbFile::create(alloc, keys, device, 4096, [0; 16], 0, Limits::STANDARD)
    else {
        return Err(Fail::new("no new file"));
    };
    let device = file.close();
    Ok(device.image(device.calls(), 0, true)?)
}
