//! The command `session`: standard input and output served over the tables of a file.

ghost use Rattle.std.specs.Prelude.{◌≡◌, ◌≢◌, is_some, true};
ghost use Rattle.srv_edge.specs.Count.{HasCause};
ghost use Rattle.table_model.specs.Bounds.{standard};
ghost use Rattle.type_store.specs.Opened.{IsOpened};
ghost use Rattle.type_store.specs.Views.{tables_in};
ghost use Rattle.file_commands.specs.Session.{CompletesSession, RunsSession, ServesBook, ServesOver};

use client_session::Solo;
use hub::Book;
use program_status::{Status, status_of_end, status_of_fault};
use request_frames::serve_link;
use srv_edge::limit::SESSION_BYTES;
use srv_edge::{Both, Device, Limits, Room, SessionEnd, Sink, Source};
use std::alloc::Global;
use std::hash::RandomState;
use type_store::{PdbFile, Tables};

/// Opens the file of a device, serves the source and the sink over its tables, and hands the device
/// back. The keys are those by which names are found in memory.
pub(crate) fn session<S: Source, K: Sink, D: Device>(
    alloc: Global,
    keys: RandomState,
    source: &mut S,
    sink: &mut K,
    device: D,
) -> (Status, D)
    ensures session { RunsSession D.Device S.Source K.Sink
        device result.1 source.old source.new sink.old sink.new result.0 }
    ensures completes { CompletesSession D.Device S.Source K.Sink
        device result.1 source.old source.new sink.old sink.new result.0 }
    ensures no_usage { result.0 ≢ Status.Usage }
    ensures no_bytes { result.0 ≢ Status.NotEmpty }
    ensures reads { HasCause (result.0 ≡ Status.ReadFault)
        (S.faults source.old) (S.faults source.new) }
    ensures writes { HasCause (result.0 ≡ Status.WriteFault)
        (K.faults sink.old) (K.faults sink.new) }
    ensures disk { HasCause (result.0 ≡ Status.DiskFault)
        (D.fault_count device) (D.fault_count result.1) }
    ensures loans { D.loans result.1 ≡ D.loans device }
{
    let Ok(mut room) = Room::new(alloc) else {
        return (Status::OutOfMemory, device);
    };
    match PdbFile::open(alloc, keys, device, Limits::STANDARD) {
        Ok((file, tables)) => {
            let (end, device) = serve_file(alloc, source, sink, file, tables, &mut room);
            (status_of_end(end), device)
        }
        Err((fault, device)) => (status_of_fault(fault), device),
    }
}

// Serves a source and a sink over a file that was just opened.
fn serve_file<S: Source, K: Sink, D: Device>(
    alloc: Global,
    source: &mut S,
    sink: &mut K,
    file: PdbFile<D>,
    tables: Tables,
    room: &mut Room,
) -> (SessionEnd, D)
    requires opened { IsOpened standard (D.seen file.device) file (tables_in tables) }
    ensures { ServesOver D.Device S.Source K.Sink file (tables_in tables) result.1
        source.old source.new sink.old sink.new result.0 }
{
    let mut book = Book::new(file, tables);
    let end = serve_book(alloc, source, sink, &mut book, room);
    let Book { file, .. } = book;
    let Some(file) = file else { unreachable!() };
    (end, file.close())
}

/// Serves a source and a sink as one link, over a book.
pub(crate) fn serve_book<S: Source, K: Sink, D: Device>(
    alloc: Global,
    source: &mut S,
    sink: &mut K,
    book: &mut Book<D>,
    room: &mut Room,
) -> SessionEnd
    requires { is_some book.old.file ≡ true }
    ensures { ServesBook D.Device S.Source K.Sink book.old book.new
        source.old source.new sink.old sink.new result }
{
    let mut desk = Solo::new(alloc, book);
    serve_desk(&mut Both { source, sink }, &mut desk, room)
}

fn serve_desk<'a, 'b, S: Source, K: Sink, D: Device>(
    link: &mut Both<'a, S, K>,
    desk: &mut Solo<'b, D>,
    room: &mut Room,
) -> SessionEnd
    ensures serves { ServesBook D.Device S.Source K.Sink desk.old.book.now desk.new.book.now
        link.old.source.now link.new.source.now link.old.sink.now link.new.sink.now result }
    ensures book_name { desk.new.book.ghost_name ≡ desk.old.book.ghost_name }
    ensures source_name { link.new.source.ghost_name ≡ link.old.source.ghost_name }
    ensures sink_name { link.new.sink.ghost_name ≡ link.old.sink.ghost_name }
{
    serve_link(&(), link, desk, SESSION_BYTES, room)
}
