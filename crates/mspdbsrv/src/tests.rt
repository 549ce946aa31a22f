//! The program over files of the system.

use crate::device_of;
use command_words::{Plan, Word, plan_of};
use file_commands::run;
use program_status::Status;
use srv_edge::{MemSink, MemSource};
use std::alloc::Global;
use std::hash::RandomState;
use std::test::Fail;

// An AddType of a modifier and two commits.
const TWO_COMMITS: &[u8] = b"\x0d\0\0\0\x02\x0a\0\x01\x10\x74\0\0\0\x01\0\xf2\xf1\
    \x01\0\0\0\x08\x01\0\0\0\x08";

const FIRST: &str = "msf block=4096 blocks=9 streams=8 free=0\n\
    pdb age=1 types=0 items=0 names=0\n";

const DUMPED: &str = "msf block=4096 blocks=16 streams=8 free=6\n\
    pdb age=3 types=1 items=0 names=0\n\
    stream 0 size=0 blocks=0\n\
    stream 1 size=75 blocks=1\n\
    stream 2 size=68 blocks=1\n\
    stream 3 size=0 blocks=0\n\
    stream 4 size=56 blocks=1\n\
    stream 5 size=12 blocks=1\n\
    stream 6 size=0 blocks=0\n\
    stream 7 size=29 blocks=1\n\
    type 00001000 1001 0a000110740000000100f2f1\n";

// A command and a path as words.
fn words_of(alloc: Global, command: &str, path: &str) -> Result<Vec<Word>, Fail> {
    let mut words = Vec::new(alloc);
    words.push(Word::new(String::from_str(alloc, command)?))?;
    words.push(Word::new(String::from_str(alloc, path)?))?;
    Ok(words)
}

// What words ask for.
fn plan_for(alloc: Global, words: &[Word]) -> Result<Plan, Fail> {
    match plan_of(alloc, words) {
        Ok(plan) => Ok(plan),
        Err(_) => Err(Fail::new("no form")),
    }
}

// What a command prints over the file at a path, and its status.
fn shown(
    rt: &HostRuntime,
    command: &str,
    path: &str,
    input: &[u8],
) -> Result<(String, Status), Fail> {
    let alloc = rt.alloc();
    let mut source = MemSource::new(Vec::from_slice(alloc, input)?, 65_536, Vec::new(alloc));
    let mut sink = MemSink::new(alloc, Vec::new(alloc));
    let words = words_of(alloc, command, path)?;
    let Ok(device) = device_of(rt, &plan_for(alloc, &words)?) else {
        return Err(Fail::new("no memory"));
    };
    let keys = RandomState::new(rt)?;
    let (status, _) = run(alloc, keys, &words, &mut source, &mut sink, device);
    Ok((String::from_utf8_lossy(alloc, sink.taken())?, status))
}

// A file, a folder, what is no regular file, and a path that is not there.
#[test]
fn files_of_the_system(rt: HostRuntime) -> Result<(), Fail> {
    let folder = std::env::temp_dir(&rt)?;
    let id = std::process::id(rt.process());
    let path = format!(in rt.alloc(); "{}/mspdbsrv-{id}.pdb", folder.as_str())?;
    let (text, status) = shown(&rt, "check", path.as_str(), b"")?;
    assert_eq!(rt; (text.as_str(), status), ("", Status::DiskFault));
    let (text, status) = shown(&rt, "init", path.as_str(), b"")?;
    assert_eq!(rt; (text.as_str(), status), (FIRST, Status::Ok));
    let (text, status) = shown(&rt, "check", path.as_str(), b"")?;
    std::fs::remove_file(&rt, path.as_str())?;
    assert_eq!(rt; (text.as_str(), status), (FIRST, Status::Ok));
    for path in [folder.as_str(), "/dev/null"] {
        let (text, status) = shown(&rt, "check", path, b"")?;
        assert_eq!(rt; (text.as_str(), status), ("", Status::DiskFault));
    }
    Ok(())
}

// A file that is made, committed to and read. Meanwhile nobody else may write it.
#[test]
fn file_that_is_committed_to(rt: HostRuntime) -> Result<(), Fail> {
    let alloc = rt.alloc();
    let folder = std::env::temp_dir(&rt)?;
    let id = std::process::id(rt.process());
    let path = format!(in alloc; "{}/mspdbsrv-commit-{id}.pdb", folder.as_str())?;
    let (text, status) = shown(&rt, "init", path.as_str(), b"")?;
    assert_eq!(rt; (text.as_str(), status), (FIRST, Status::Ok));
    let (_, status) = shown(&rt, "init", path.as_str(), b"")?;
    assert_eq!(rt; status, Status::NotEmpty);
    let (_, status) = shown(&rt, "session", path.as_str(), TWO_COMMITS)?;
    assert_eq!(rt; status, Status::Ok);
    let (text, status) = shown(&rt, "dump", path.as_str(), b"")?;
    assert_eq!(rt; (text.as_str(), status), (DUMPED, Status::Ok));
    let words = words_of(alloc, "session", path.as_str())?;
    let held = device_of(&rt, &plan_for(alloc, &words)?);
    let (_, status) = shown(&rt, "session", path.as_str(), b"")?;
    assert_eq!(rt; (status, held.is_ok()), (Status::DiskFault, true));
    drop(held);
    std::fs::remove_file(&rt, path.as_str())?;
    Ok(())
}
