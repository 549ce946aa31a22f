//! The commands `check` and `dump`: the lines of a file that holds tables, or its first damage.

ghost use Rattle.std.specs.Prelude.{◌≡◌, ◌≢◌, IfOk};
ghost use Rattle.srv_edge.specs.Count.{HasCause};
ghost use Rattle.srv_edge.specs.Reading.{OnlyReads};
ghost use Rattle.table_model.specs.File.{newest_cut};
ghost use Rattle.type_store.specs.Files.{cut_of};
ghost use Rattle.type_store.specs.Views.{tables_in};
ghost use Rattle.type_store.specs.Written.{AreWithin};
ghost use Rattle.program_status.specs.Statuses.{status_of_fault};
ghost use Rattle.file_commands.specs.Printed.{CompletesPrinting, PrintsFile, PrintsOrWants, text_for, text_of_fault};

use msf_image::OpenFault;
use pdb_dump::{check_text, damage_text, dump_text};
use program_status::{Status, print, status_of_fault};
use srv_edge::{Device, Limits, Sink};
use std::alloc::{AllocError, Global};
use std::hash::RandomState;
use type_store::{PdbFile, Tables};

/// How much is printed of a file.
#[derive(Clone, Copy, Debug, PartialEq, Eq)]
pub enum Detail {
    /// The two lines of `check`.
    Lines,
    /// All of it, as `dump` does.
    All,
}

/// Opens the file of a device, prints what it holds or its first damage, and hands the device back.
/// The keys are those by which names are found in memory.
pub(crate) fn show<K: Sink, D: Device>(
    alloc: Global,
    keys: RandomState,
    what: Detail,
    sink: &mut K,
    device: D,
) -> (Status, D)
    ensures printed { PrintsFile D.Device K.Sink what device sink.old sink.new result.0 }
    ensures completes { CompletesPrinting D.Device K.Sink
        device result.1 sink.old sink.new result.0 }
    ensures writes { HasCause (result.0 ≡ Status.WriteFault)
        (K.faults sink.old) (K.faults sink.new) }
    ensures disk { HasCause (result.0 ≡ Status.DiskFault)
        (D.fault_count device) (D.fault_count result.1) }
    ensures no_usage { result.0 ≢ Status.Usage }
    ensures no_read_fault { result.0 ≢ Status.ReadFault }
    ensures no_bytes { result.0 ≢ Status.NotEmpty }
    ensures only_reads { OnlyReads D.Device device result.1 }
{
    match PdbFile::open(alloc, keys, device, Limits::STANDARD) {
        Ok((file, tables)) => {
            let status = show_file(alloc, what, sink, &file, &tables);
            (status, file.close())
        }
        Err((fault, device)) => (show_fault(alloc, sink, fault), device),
    }
}

/// Prints a file that holds these tables.
pub(crate) fn show_file<K: Sink, D: Device>(
    alloc: Global,
    what: Detail,
    sink: &mut K,
    file: &PdbFile<D>,
    tables: &Tables,
) -> Status
    requires within { AreWithin file.now.bounds (tables_in tables.now) }
    ensures printed { PrintsOrWants K.Sink (text_for what file.now.image
        (cut_of (newest_cut file.now.file).number (tables_in tables.now)))
        Status.Ok sink.old sink.new result }
    ensures writes { HasCause (result ≡ Status.WriteFault)
        (K.faults sink.old) (K.faults sink.new) }
{
    match text_of_file(alloc, what, file, tables) {
        Ok(text) => print(sink, &text, Status::Ok),
        Err(_) => Status::OutOfMemory,
    }
}

// Prints why a file does not open.
fn show_fault<K: Sink>(alloc: Global, sink: &mut K, fault: OpenFault) -> Status
    ensures printed { PrintsOrWants K.Sink (text_of_fault fault) (status_of_fault fault)
        sink.old sink.new result }
    ensures writes { HasCause (result ≡ Status.WriteFault)
        (K.faults sink.old) (K.faults sink.new) }
{
    match text_of_fault(alloc, fault) {
        Ok(text) => print(sink, &text, status_of_fault(fault)),
        Err(_) => Status::OutOfMemory,
    }
}

// The text of an open file.
fn text_of_file<D: Device>(
    alloc: Global,
    what: Detail,
    file: &PdbFile<D>,
    tables: &Tables,
) -> Result<Vec<u8>, AllocError>
    requires within { AreWithin file.now.bounds (tables_in tables.now) }
    ensures { IfOk result (λ text. text.items ≡ text_for what file.now.image
        (cut_of (newest_cut file.now.file).number (tables_in tables.now))) }
{
    match what {
        Detail::Lines => check_text(alloc, file, tables),
        Detail::All => dump_text(alloc, file, tables),
    }
}

// The text of why a file does not open.
fn text_of_fault(alloc: Global, fault: OpenFault) -> Result<Vec<u8>, AllocError>
    ensures { IfOk result (λ text. text.items ≡ text_of_fault fault) }
{
    match fault {
        OpenFault::Damage { kind, place } => damage_text(alloc, kind, place),
        OpenFault::DiskFault | OpenFault::OutOfMemory => Ok(Vec::new(alloc)),
    }
}
