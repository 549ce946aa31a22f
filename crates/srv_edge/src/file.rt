ghost use Rattle.std.specs.Prelude.{◌≡◌, IsNone, false, true};

use crate::device::Device;
use crate::failed::Failed;
use crate::faults::FaultCount;
use std::fs::OpenFile;
use std::os::unix::fs::FileExt;

/// A file of the system, such as a [`std::fs::File`] that is open for reading and writing. It tells
/// no content.
///
/// What the system does with the bytes is trusted. Of each call only its count is proved: it rises
/// by one at each error, and at nothing else. An error is what the system answers so, a read past
/// the end, and a head that the system takes in part. Reads and writes are positioned and go on
/// where the system does a part of them; a head is one write of 56 bytes, which a crash is trusted
/// to leave whole or not at all; a sync asks for data and length both. A read of no bytes asks
/// nothing of the system.
#[derive(Drop)]
pub struct FileDevice<F> {
    file: Option<F>,
    faults: FaultCount,
}

impl<F: FileExt + OpenFile> FileDevice<F> {
    ghost use Rattle.srv_edge.specs.Absent.{is_absent};

    pub fn new(file: F) -> FileDevice<F>
        ensures present { is_absent result ≡ false }
        ensures faults { ⟦<FileDevice<F> as Device>⟧.fault_count result ≡ 0 }
    {
        FileDevice {
            file: Some(file),
            faults: FaultCount::NONE,
        }
    }

    /// Where there is no file. Each call fails.
    pub fn absent() -> FileDevice<F>
        ensures absent { is_absent result ≡ true }
        ensures faults { ⟦<FileDevice<F> as Device>⟧.fault_count result ≡ 0 }
    {
        FileDevice {
            file: None,
            faults: FaultCount::NONE,
        }
    }
}

impl<F: FileExt + OpenFile> Device for FileDevice<F> {
    ghost use Rattle.srv_edge.specs.Absent.{CallsFile};

    ghost fault_count = { λ d. d.faults.count };

    ghost told = { λ d c none. absurd none };

    ghost seen_is_one = { λ d no. Prim.cc };

    ghost counts_now = { λ d t c le none. none };

    ghost only_now = { λ d c none. none };

    fn size(&mut self) -> Result<u64, Failed>
        ensures { CallsFile self.old result self.new }
    {
        let Some(size) = size_of(&self.file) else {
            return Err(self.faults.add());
        };
        Ok(size)
    }

    fn read(&mut self, at: u64, out: &mut [u8]) -> Result<(), Failed>
        ensures { CallsFile self.old result self.new }
    {
        if read_all(&self.file, at, out) {
            Ok(())
        } else {
            Err(self.faults.add())
        }
    }

    fn write(&mut self, at: u64, bytes: &[u8]) -> Result<(), Failed>
        ensures { CallsFile self.old result self.new }
    {
        if write_all(&self.file, at, bytes) {
            Ok(())
        } else {
            Err(self.faults.add())
        }
    }

    fn write_super(&mut self, bytes: &[u8; 56]) -> Result<(), Failed>
        ensures { CallsFile self.old result self.new }
    {
        if write_once(&self.file, bytes) {
            Ok(())
        } else {
            Err(self.faults.add())
        }
    }

    fn sync(&mut self) -> Result<(), Failed>
        ensures { CallsFile self.old result self.new }
    {
        if sync_all(&self.file) {
            Ok(())
        } else {
            Err(self.faults.add())
        }
    }

    fn faults(&self) -> u64 {
        self.faults.count
    }
}

// How many bytes the file has.
fn size_of<F: OpenFile>(file: &Option<F>) -> Option<u64>
    ensures { IsNone file.now → IsNone result }
{
    let Some(file) = file else {
        return None;
    };
    match file.metadata() {
        Ok(metadata) => Some(metadata.len()),
        Err(_) => None,
    }
}

// Fills the slice from a place on, in as many reads as it takes.
fn read_all<F: FileExt>(file: &Option<F>, at: u64, out: &mut [u8]) -> bool
    ensures { IsNone file.now → result ≡ false }
{
    match file {
        Some(file) => file.read_exact_at(out, at).is_ok(),
        None => false,
    }
}

// Writes all the bytes, in as many writes as it takes.
fn write_all<F: FileExt>(file: &Option<F>, at: u64, bytes: &[u8]) -> bool
    ensures { IsNone file.now → result ≡ false }
{
    match file {
        Some(file) => file.write_all_at(bytes, at).is_ok(),
        None => false,
    }
}

// Writes the head by one write, which is to take it whole.
fn write_once<F: FileExt>(file: &Option<F>, head: &[u8; 56]) -> bool
    ensures { IsNone file.now → result ≡ false }
{
    match file {
        Some(file) => matches!(file.write_at(head, 0), Ok(56)),
        None => false,
    }
}

// Asks that data and length both be kept.
fn sync_all<F: OpenFile>(file: &Option<F>) -> bool
    ensures { IsNone file.now → result ≡ false }
{
    match file {
        Some(file) => file.sync_all().is_ok(),
        None => false,
    }
}
