//! The command `serve`: the clients of one door served over the tables of a file, by workers in
//! threads of their own.

ghost use Rattle.std.specs.Prelude.{◌≡◌, ◌≤◌, ◌<◌, ◌⊎◌, ◌^◌, ℕ, List, Some, [], IfOk, true, is_some, vec_capacity, vec_len};
ghost use Rattle.command_words.specs.Forms.{form_of};
ghost use Rattle.srv_edge.specs.Count.{HasCause, Rose};
ghost use Rattle.table_model.specs.Bounds.{standard};
ghost use Rattle.turnstile.specs.Passes.{IsIdleAt};
ghost use Rattle.type_store.specs.Files.{FileView, IsShown};
ghost use Rattle.type_store.specs.Opened.{IsOpened};
ghost use Rattle.type_store.specs.Views.{tables_in};
ghost use Rattle.program_status.specs.Prints.{Prints};
ghost use Rattle.build_server.specs.Server.{Accepts, CompletesServer, IsServe, RunsServer, ServesOver, counted_in, loans_in, status_behind, summary_of};
ghost use Rattle.build_server.specs.Workers.{IsLeftBy};
ghost use Rattle.build_server.specs.declared.server.Closed.TheVariants as closed;

use crate::summary::put_summary;
use crate::worker::Worker;
use crate::workers::{retire_all, take_seats};
use command_words::{Plan, Usage, Word, plan_of, plans_have_words};
use hub::{Book, Ended, Hub, HubPass};
use program_status::{Status, print, status_of_fault};
use session_pool::{Pooled, run_pool};
use srv_edge::{Device, Door, Limits, Piece, Room, Sink};
use std::alloc::{AllocError, Global};
use std::hash::RandomState;
use std::sync::Wait;
use std::thread::Threads;
use type_store::{PdbFile, Tables};

/// What a server hands back of its file.
#[derive(Drop)]
pub enum Closed<D: Device> {
    /// No link was accepted: the device, which was read alone.
    Early(D),
    /// Links were served: what their hub left.
    Served(Ended<D>),
}

/// Does what the words ask for, which is `serve`, and hands back the device and the door. It makes
/// its buffers before it opens the file, and opens the file before it accepts a link. The keys are
/// those by which names are found in memory.
pub fn run_server<R: Threads + Wait + Send + Sync, D: Device + Send, O: Door + Send, K: Sink>(
    rt: &R,
    alloc: Global,
    keys: RandomState,
    words: &[Word],
    door: O,
    sink: &mut K,
    device: D,
) -> (Status, Closed<D>, O)
where
    O::End: Send,
    requires handed { O.handed door < 2 ^ 62 }
    requires returned { O.returned door ≤ O.handed door }
    // The words are no form of a server: that yields to want of memory alone.
    ensures usage { result.0 ≡ Status.Usage → ¬ IsServe (form_of words.now) }
    ensures no_form { (¬ IsServe (form_of words.now))
        → (result.0 ≡ Status.Usage) ⊎ (result.0 ≡ Status.OutOfMemory) }
    ensures not_begun { (¬ IsServe (form_of words.now)) → (result.1 ≡ closed.Early device)
        × (result.2 ≡ door) × (sink.new ≡ sink.old) }

    // Links were served over the file's tables, in one legal history, and the summary went; or none
    // was accepted.
    ensures serves { (path listen : List ℕ) (sessions workers : ℕ)
        → form_of words.now ≡ Some (Plan.Serve path listen sessions workers)
        → RunsServer D.Device O.Door K.Sink sessions workers
        device door result.2 sink.old sink.new result.0 result.1 }
    ensures writes { HasCause (result.0 ≡ Status.WriteFault)
        (K.faults sink.old) (K.faults sink.new) }
    ensures fails { HasCause (result.0 ≡ Status.DoorFault) (O.faults door) (O.faults result.2) }
    ensures disk { result.0 ≡ Status.DiskFault
        → Rose (D.fault_count device) (counted_in D.fault_count result.1) }
    ensures loans { loans_in D.loans result.1 ≡ D.loans device }

    // Where nothing fails, the file alone says how the command ends.
    ensures completes { (path listen : List ℕ) (sessions workers : ℕ)
        → form_of words.now ≡ Some (Plan.Serve path listen sessions workers)
        → CompletesServer D.Device O.Door K.Sink
        device door result.2 sink.old sink.new result.0 result.1 }
{
    match plan_of(alloc, words) {
        Ok(
            Plan::Serve {
                sessions,
                workers,
                ..
            },
        ) => {
            // The words gave a number that workers may have.
            plans_have_words();
            serve(rt, alloc, keys, sessions, workers, door, sink, device)
        }
        Ok(_) | Err(Usage::NotAForm) => (Status::Usage, Closed::Early(device), door),
        Err(Usage::OutOfMemory) => (Status::OutOfMemory, Closed::Early(device), door),
    }
}

// The buffers of a server's workers, and that of its summary.
#[derive(Drop)]
struct Buffers {
    rooms: Vec<Room>,
    text: Piece,
}

// The buffers for so many workers.
fn make_buffers(alloc: Global, workers: u32) -> Result<Buffers, AllocError>
    ensures rooms { IfOk result (λ b. vec_len b.rooms ≡ workers) }
    ensures text { IfOk result (λ b. b.text ≡ []) }
{
    let mut rooms = Vec::with_capacity(alloc, workers as usize)?;
    for _made in 0..workers {
        rooms.push_reserved(Room::new(alloc)?);
    }
    Ok(Buffers {
        rooms,
        text: Piece::new(alloc)?,
    })
}

// Opens the file of a device, and serves the links of the door over its tables.
fn serve<R: Threads + Wait + Send + Sync, D: Device + Send, O: Door + Send, K: Sink>(
    rt: &R,
    alloc: Global,
    keys: RandomState,
    sessions: u32,
    workers: u32,
    door: O,
    sink: &mut K,
    device: D,
) -> (Status, Closed<D>, O)
where
    O::End: Send,
    requires workers { (1 ≤ workers) × (workers ≤ 64) }
    requires handed { O.handed door < 2 ^ 62 }
    requires returned { O.returned door ≤ O.handed door }
    ensures { RunsServer D.Device O.Door K.Sink sessions workers
        device door result.2 sink.old sink.new result.0 result.1 }
{
    let Ok(buffers) = make_buffers(alloc, workers) else {
        return (Status::OutOfMemory, Closed::Early(device), door);
    };
    match PdbFile::open(alloc, keys, device, Limits::STANDARD) {
        Ok((file, tables)) => { serve_file(rt, alloc, file, tables, buffers, sessions, door, sink) }
        Err((fault, device)) => (status_of_fault(fault), Closed::Early(device), door),
    }
}

// Serves the links of the door over a file that was just opened.
fn serve_file<R: Threads + Wait + Send + Sync, D: Device + Send, O: Door + Send, K: Sink>(
    rt: &R,
    alloc: Global,
    file: PdbFile<D>,
    tables: Tables,
    buffers: Buffers,
    sessions: u32,
    door: O,
    sink: &mut K,
) -> (Status, Closed<D>, O)
where
    O::End: Send,
    requires opened { IsOpened standard (D.seen file.device) file (tables_in tables) }
    requires some { 1 ≤ vec_len buffers.rooms }
    requires few { vec_len buffers.rooms ≤ 64 }
    requires text { buffers.text ≡ [] }
    requires handed { O.handed door < 2 ^ 62 }
    requires returned { O.returned door ≤ O.handed door }
    ensures { ServesOver D.Device O.Door K.Sink sessions (vec_len buffers.rooms)
        file (tables_in tables) door result.2 sink.old sink.new result.0 result.1 }
{
    let Buffers { rooms, mut text } = buffers;
    let Ok(workers) = Vec::with_capacity(alloc, rooms.len()) else {
        return (Status::OutOfMemory, Closed::Early(file.close()), door);
    };
    match Hub::new(alloc, Book::new(file, tables), Limits::STANDARD) {
        Ok((hub, mut first)) => {
            let served = serve_links(rt, &hub, &mut first, rooms, workers, sessions, door);
            let left = hub.close(first);
            let printed = print_summary(sink, served.accepted, &left, &mut text);
            let status = status_behind(served.door_failed, printed);
            (status, Closed::Served(left), served.door)
        }
        Err(book) => (Status::OutOfMemory, Closed::Early(device_of(book)), door),
    }
}

// The status of a server whose summary was printed with this one.
fn status_behind(door_failed: bool, printed: Status) -> Status
    ensures { result ≡ status_behind door_failed printed }
{
    if door_failed {
        Status::DoorFault
    } else {
        printed
    }
}

// The device of a book whose file is there.
fn device_of<D: Device>(book: Book<D>) -> D
    requires { is_some book.file ≡ true }
    ensures { (file : FileView D) → book.file ≡ Some file → result ≡ file.device }
{
    let Book { file, .. } = book;
    let Some(file) = file else { unreachable!() };
    file.close()
}

// What the pool of a server hands back once its passes have been retired.
#[derive(Drop)]
struct ServedLinks<O> {
    door: O,
    accepted: u32,
    door_failed: bool,
}

// Serves the links of the door over a hub, by a worker for each room. Then pass 0 has retired the
// pass of each worker.
fn serve_links<'h, R: Threads + Wait + Send + Sync, D: Device + Send, O: Door + Send>(
    rt: &R,
    hub: &'h Hub<D>,
    first: &mut HubPass<D>,
    rooms: Vec<Room>,
    mut workers: Vec<Worker<'h, R, D>>,
    sessions: u32,
    door: O,
) -> ServedLinks<O>
where
    O::End: Send,
    requires idle { IsIdleAt hub.now first.old }
    requires first { first.old.number ≡ 0 }
    requires made { first.old.made ≡ 1 }
    requires ended { first.old.ended ≡ [] }
    requires some { 1 ≤ vec_len rooms }
    requires few { vec_len rooms ≤ 64 }
    requires none { workers.items ≡ [] }
    requires memory { vec_len rooms ≤ vec_capacity workers }
    requires handed { O.handed door < 2 ^ 62 }
    requires returned { O.returned door ≤ O.handed door }
    ensures accepts { Accepts O.Door sessions result.accepted result.door_failed
        door result.door }
    ensures left { IsLeftBy (vec_len rooms) first.old first.new }
{
    take_seats(hub, first, rooms, &mut workers);
    let Pooled {
        workers,
        door,
        accepted,
        door_failed,
    } = run_pool(rt, workers, sessions, door);
    retire_all(hub, first, workers);
    ServedLinks {
        door,
        accepted,
        door_failed,
    }
}

// Prints the summary of what a hub left.
fn print_summary<K: Sink, D: Device>(
    sink: &mut K,
    accepted: u32,
    left: &Ended<D>,
    text: &mut Piece,
) -> Status
    requires { text.old ≡ [] }
    ensures printed { Prints K.Sink (summary_of accepted left.now) Status.Ok
        sink.old sink.new result }
    ensures writes { HasCause (result ≡ Status.WriteFault)
        (K.faults sink.old) (K.faults sink.new) }
    // What a crash leaves of the file.
    ensures shown { (file : FileView D) → left.now.book.file ≡ Some file
        → IsShown D.may_leave file }
{
    put_summary(accepted, left, text);
    if let Some(file) = &left.book.file {
        let _age = file.age();
    }
    print(sink, text.bytes(), Status::Ok)
}
