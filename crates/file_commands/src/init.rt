//! The command `init`: a new file on an empty device.

ghost use Rattle.std.specs.Prelude.{◌≡◌, ◌≢◌, [], IsTrue};
ghost use Rattle.msf_blocks.specs.Blocks.{IsBlockSize};
ghost use Rattle.srv_edge.specs.Count.{HasCause};
ghost use Rattle.file_commands.specs.Making.{CompletesInit, RunsInit};

use crate::show::{Detail, show_file};
use program_status::{Status, status_of_fault};
use srv_edge::{Device, Limits, Sink};
use std::alloc::Global;
use std::hash::RandomState;
use type_store::PdbFile;

/// How a new file is to be.
#[derive(Clone, Copy, Debug, PartialEq, Eq)]
pub struct NewFile {
    /// The size of its blocks.
    pub block: u32,
    pub guid: [u8; 16],
    /// The number that dates its PDB stream.
    pub signature: u32,
}

/// Makes a new file on an empty device, prints its two lines, and hands the device back. The keys
/// are those by which names are found in memory.
pub(crate) fn init<K: Sink, D: Device>(
    alloc: Global,
    keys: RandomState,
    new: NewFile,
    sink: &mut K,
    mut device: D,
) -> (Status, D)
    requires block { IsBlockSize new.block }
    ensures init { RunsInit D.Device K.Sink new.block new.guid new.signature
        device result.1 sink.old sink.new result.0 }
    ensures completes { CompletesInit D.Device K.Sink
        device result.1 sink.old sink.new result.0 }
    ensures no_usage { result.0 ≢ Status.Usage }
    ensures no_read_fault { result.0 ≢ Status.ReadFault }
    ensures writes { HasCause (result.0 ≡ Status.WriteFault)
        (K.faults sink.old) (K.faults sink.new) }
    ensures disk { HasCause (result.0 ≡ Status.DiskFault)
        (D.fault_count device) (D.fault_count result.1) }
    ensures loans { D.loans result.1 ≡ D.loans device }
{
    match device.size() {
        Ok(0) => make(alloc, keys, new, sink, device),
        Ok(_) => (Status::NotEmpty, device),
        Err(_) => (Status::DiskFault, device),
    }
}

// Makes the file on a device that is empty.
fn make<K: Sink, D: Device>(
    alloc: Global,
    keys: RandomState,
    new: NewFile,
    sink: &mut K,
    device: D,
) -> (Status, D)
    requires block { IsBlockSize new.block }
    requires empty { IsTrue D.tells → D.seen device ≡ [] }
    ensures init { RunsInit D.Device K.Sink new.block new.guid new.signature
        device result.1 sink.old sink.new result.0 }
    ensures completes { CompletesInit D.Device K.Sink
        device result.1 sink.old sink.new result.0 }
    ensures no_usage { result.0 ≢ Status.Usage }
    ensures no_read_fault { result.0 ≢ Status.ReadFault }
    ensures no_bytes { result.0 ≢ Status.NotEmpty }
    ensures writes { HasCause (result.0 ≡ Status.WriteFault)
        (K.faults sink.old) (K.faults sink.new) }
    ensures disk { HasCause (result.0 ≡ Status.DiskFault)
        (D.fault_count device) (D.fault_count result.1) }
    ensures loans { D.loans result.1 ≡ D.loans device }
{
    let NewFile {
        block,
        guid,
        signature,
    } = new;
    let limits = Limits::STANDARD;
    match PdbFile::create(alloc, keys, device, block, guid, signature, limits) {
        Ok((file, tables)) => {
            let status = show_file(alloc, Detail::Lines, sink, &file, &tables);
            (status, file.close())
        }
        Err((fault, device)) => (status_of_fault(fault), device),
    }
}
