//! Runs of the program over devices in memory, for tests.

use crate::commands::run;
use command_words::Word;
use program_status::Status;
use srv_edge::{Device, MemDevice, MemSink, MemSource};
use std::alloc::Global;
use std::hash::RandomState;
use std::test::Fail;

/// The words of a line, one behind each space.
pub(crate) fn words_of(alloc: Global, line: &str) -> Result<Vec<Word>, Fail> {
    let mut words = Vec::new(alloc);
    for word in line.split(' ') {
        words.push(Word::new(String::from_str(alloc, word)?))?;
    }
    Ok(words)
}

/// The bytes of a hexadecimal text with spaces.
pub(crate) fn bytes_of(alloc: Global, text: &str) -> Result<Vec<u8>, Fail> {
    let mut bytes = Vec::new(alloc);
    for part in text.split_whitespace() {
        bytes.extend_from_slice(&hex::decode(alloc, part)?)?;
    }
    Ok(bytes)
}

/// What goes to the sink in a run of a line of words with this input, its status, and the device.
pub(crate) fn run_line<D: Device + Drop>(
    alloc: Global,
    keys: RandomState,
    line: &str,
    input: &str,
    device: D,
) -> Result<(Vec<u8>, Status, D), Fail> {
    let mut source = MemSource::new(bytes_of(alloc, input)?, 65_536, Vec::new(alloc));
    let mut sink = MemSink::new(alloc, Vec::new(alloc));
    let words = words_of(alloc, line)?;
    let (status, device) = run(alloc, keys, &words, &mut source, &mut sink, device);
    Ok((Vec::from_slice(alloc, sink.taken())?, status, device))
}

/// A device with these bytes, of which these calls fail.
pub(crate) fn device_with(alloc: Global, bytes: &[u8], fail: &[u32]) -> Result<MemDevice, Fail> {
    Ok(MemDevice::new(alloc, bytes.to_vec(alloc)?, fail.to_vec(alloc)?))
}

/// What a device holds once all its calls are settled.
pub(crate) fn settled(device: &MemDevice) -> Result<Vec<u8>, Fail> {
    Ok(device.image(device.calls(), 0, true)?)
}

/// A new file, as `init` makes it with these options.
pub(crate) fn new_file(alloc: Global, keys: RandomState, options: &str) -> Result<Vec<u8>, Fail> {
    let line = format!(in alloc; "init P{options}")?;
    let device = device_with(alloc, &[], &[])?;
    let (_, status, device) = run_line(alloc, keys, line.as_str(), "", device)?;
    if status != Status::Ok {
        return Err(Fail::new("no new file"));
    }
    settled(&device)
}
