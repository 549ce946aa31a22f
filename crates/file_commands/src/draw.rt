//! The command `gen`: a session that is drawn from a seed, served over a new file in memory.

ghost use Rattle.std.specs.Prelude.{◌≡◌, ◌≢◌, ◌≤◌, IfOk, is_some, true};
ghost use Rattle.srv_edge.specs.Count.{HasCause};
ghost use Rattle.file_commands.specs.Drawn.{CompletesGen, HasReplies, IsDrawnLine, IsNewBook, RunsGen};

use crate::session::serve_book;
use drawn_session::{Outcome, line, session_bytes};
use hub::Book;
use program_status::{Status, print};
use srv_edge::{Device, Limits, MemSink, MemSource, Room, SessionEnd, Sink, StillDevice};
use std::alloc::{AllocError, Global};
use std::hash::RandomState;
use type_hash::string_v2;
use type_store::PdbFile;

/// The size of the file's blocks.
const BLOCK: u32 = 4096;

/// The most bytes that the file may have.
const ROOM: u32 = 16_777_216;

/// Serves a session of so many units that is drawn from a seed, and prints its line. The keys are
/// those by which names are found in memory.
pub(crate) fn draw<K: Sink>(
    alloc: Global,
    keys: RandomState,
    units: u32,
    seed: u32,
    sink: &mut K,
) -> Status
    requires { units ≤ 10000 }
    ensures runs { RunsGen K.Sink units seed sink.old sink.new result }
    ensures completes { CompletesGen K.Sink sink.old sink.new result }
    ensures writes { HasCause (result ≡ Status.WriteFault)
        (K.faults sink.old) (K.faults sink.new) }
    ensures no_usage { result ≢ Status.Usage }
    ensures no_read_fault { result ≢ Status.ReadFault }
    ensures no_disk_fault { result ≢ Status.DiskFault }
{
    match drawn_line(alloc, keys, units, seed) {
        Ok(line) => print(sink, &line, Status::Ok),
        Err(_) => Status::OutOfMemory,
    }
}

// The line of a session. Where the file has no room for its commits, that is want of memory.
fn drawn_line(
    alloc: Global,
    keys: RandomState,
    units: u32,
    seed: u32,
) -> Result<Vec<u8>, AllocError>
    requires { units ≤ 10000 }
    ensures { IfOk result (λ line. IsDrawnLine units seed line.items) }
{
    let bytes = session_bytes(alloc, units, seed)?;
    let mut book = new_book(alloc, keys)?;
    let hash = hash_of_replies(alloc, bytes, &mut book)?;
    let Book { tables, file, .. } = book;
    let Some(file) = file else { unreachable!() };
    if file.faults() > 0 {
        return Err(AllocError);
    }
    let outcome = Outcome {
        types: tables.types.len(),
        items: tables.items.len(),
        names: tables.names.len(),
        hash,
    };
    line(alloc, units, outcome)
}

// The book of a new file.
fn new_book(alloc: Global, keys: RandomState) -> Result<Book<StillDevice>, AllocError>
    ensures { IfOk result (λ book. IsNewBook ⟦<StillDevice as Device>⟧ book) }
{
    let device = StillDevice::new(alloc, Vec::new(alloc), ROOM)?;
    match PdbFile::create(alloc, keys, device, BLOCK, [0; 16], 0, Limits::STANDARD) {
        Ok((file, tables)) => Ok(Book::new(file, tables)),
        Err(_) => Err(AllocError),
    }
}

// Serves bytes over a book, and gives the hash of the replies, where the session came to its Bye.
fn hash_of_replies(
    alloc: Global,
    bytes: Vec<u8>,
    book: &mut Book<StillDevice>,
) -> Result<u32, AllocError>
    requires { is_some book.old.file ≡ true }
    ensures { IfOk result
        (λ hash. HasReplies ⟦<StillDevice as Device>⟧ bytes.items book.old book.new hash) }
{
    let mut room = Room::new(alloc)?;
    let mut source = MemSource::new(bytes, usize::MAX, Vec::new(alloc));
    let mut sink = MemSink::new(alloc, Vec::new(alloc));
    match serve_book(alloc, &mut source, &mut sink, book, &mut room) {
        SessionEnd::Bye => Ok(string_v2(sink.taken())),
        _ => Err(AllocError),
    }
}
