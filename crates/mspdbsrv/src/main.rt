//! A server through which the compilers of one build write type records and names.
#![tactic(auto)]

#[cfg(test)]
mod tests;

use build_server::run_server;
use command_words::{Plan, Usage, Word, plan_of};
use file_commands::run;
use program_status::Status;
use srv_edge::{FileDevice, StdIn, StdOut, UnixDoor};
use std::alloc::Global;
use std::fs::{File, Files, OpenOptions, TryLockError};
use std::hash::RandomState;
use std::io::{Stdin, Stdout};
use std::net::Net;
use std::process::ExitCode;
use std::rt::Env;
use std::sync::Wait;
use std::thread::Threads;
use std::{env, fs, io};

// The words of the command line behind the program's name, or why there are none.
fn words_of<R: Env + Alloc<A = Global>>(rt: &R) -> Result<Vec<Word>, Status> {
    let arguments = match env::args(rt) {
        Ok(arguments) => arguments,
        Err(e) if e.kind() == io::ErrorKind::OutOfMemory => return Err(Status::OutOfMemory),
        Err(_) => return Err(Status::Usage),
    };
    let mut words = Vec::new(rt.alloc());
    for text in arguments.skip(1) {
        if words.push(Word::new(text)).is_err() {
            return Err(Status::OutOfMemory);
        }
    }
    Ok(words)
}

// What a command does with its file.
#[derive(Clone, Copy, Debug, PartialEq, Eq)]
enum Access {
    Read,
    Write,
    /// Write, and make it where it is not there.
    Make,
}

// The file that a plan names, or one that fails at every call, where it cannot be had.
fn device_of(rt: &HostRuntime, plan: &Plan) -> Result<FileDevice<File>, Status> {
    let (path, access) = match plan {
        Plan::Check { path } | Plan::Dump { path } => (path, Access::Read),
        Plan::Session { path } => (path, Access::Write),
        Plan::Init { path, .. } => (path, Access::Make),
        Plan::Serve { path, .. } => (path, Access::Write),
        Plan::Gen { .. } => return Ok(FileDevice::absent()),
    };
    match open(rt, path.as_str(), access) {
        Ok(Some(file)) => Ok(FileDevice::new(file)),
        Ok(None) => Ok(FileDevice::absent()),
        Err(e) if e.kind() == io::ErrorKind::OutOfMemory => Err(Status::OutOfMemory),
        Err(_) => Ok(FileDevice::absent()),
    }
}

// Opens a regular file. One that is written is locked, so that two servers or sessions do not write
// it at a time; where another has the lock, it cannot be had.
fn open(rt: &HostRuntime, path: &str, access: Access) -> io::Result<Option<File>> {
    if !is_regular(rt, path, access)? {
        return Ok(None);
    }
    let mut options = OpenOptions::new();
    let file = options
        .read(true)
        .write(access != Access::Read)
        .create(access == Access::Make)
        .open(rt, path)?;
    match access {
        Access::Read => Ok(Some(file)),
        Access::Write | Access::Make => Ok(locked(file)),
    }
}

// Whether a regular file stands at a path, or is to be made there. No other is opened, since to open a
// pipe may wait for a writer.
fn is_regular(rt: &HostRuntime, path: &str, access: Access) -> io::Result<bool> {
    match fs::metadata(rt, path) {
        Ok(metadata) => Ok(metadata.is_file()),
        Err(e) if access == Access::Make && e.kind() == io::ErrorKind::NotFound => Ok(true),
        Err(e) => Err(e),
    }
}

// Locks a file, unless another has its lock. Where the system keeps no locks it goes without.
fn locked(file: File) -> Option<File> {
    match file.try_lock() {
        Ok(()) | Err(TryLockError::Error(_)) => Some(file),
        Err(TryLockError::WouldBlock) => None,
    }
}

// The keys by which names are found. Where the system gives no random bytes, that is a failed read.
fn keys_of(rt: &HostRuntime) -> Result<RandomState, Status> {
    match RandomState::new(rt) {
        Ok(keys) => Ok(keys),
        Err(_) => Err(Status::ReadFault),
    }
}

// What the program is to do, and what it does that with.
struct Task {
    words: Vec<Word>,
    plan: Plan,
    keys: RandomState,
    device: FileDevice<File>,
}

// The task that the words ask for. They are judged before anything else is asked of the system.
fn task_of(rt: &HostRuntime) -> Result<Task, Status> {
    let words = words_of(rt)?;
    let plan = match plan_of(rt.alloc(), &words) {
        Ok(plan) => plan,
        Err(Usage::NotAForm) => return Err(Status::Usage),
        Err(Usage::OutOfMemory) => return Err(Status::OutOfMemory),
    };
    let keys = keys_of(rt)?;
    let device = device_of(rt, &plan)?;
    Ok(Task {
        words,
        plan,
        keys,
        device,
    })
}

// Does a task over standard input and output, or over a socket.
fn do_task<R: Threads + Wait + Net + Files<File = File> + Alloc<A = Global> + Send + Sync>(
    rt: &R,
    input: Stdin,
    output: Stdout,
    task: Task,
) -> Status {
    let Task {
        words,
        plan,
        keys,
        device,
    } = task;
    let mut sink = StdOut::new(output);
    let Plan::Serve { listen, .. } = &plan else {
        let mut source = StdIn::new(input);
        return run(rt.alloc(), keys, &words, &mut source, &mut sink, device).0;
    };
    let Ok(door) = UnixDoor::listen(rt, rt.alloc(), listen.as_str()) else {
        return Status::OutOfMemory;
    };
    let (status, _closed, door) = run_server(rt, rt.alloc(), keys, &words, door, &mut sink, device);
    door.close(rt);
    status
}

fn main(rt: HostRuntime) -> ExitCode {
    let status = match task_of(&rt) {
        Ok(task) => do_task(&rt, rt.stdin(), rt.stdout(), task),
        Err(status) => status,
    };
    if status != Status::Ok {
        let _ = eprintln!(rt; "mspdbsrv: {status}");
    }
    ExitCode::from(status.code())
}
