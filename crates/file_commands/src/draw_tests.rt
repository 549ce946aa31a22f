//! Drawn sessions, each with the line that a program apart from this one says of it.

use crate::commands::run;
use crate::running::{device_with, run_line, words_of};
use program_status::Status;
use srv_edge::{Device, MemSink, MemSource};
use std::alloc::Global;
use std::hash::RandomState;
use std::test::Fail;

// Command lines, and what is printed.
const LINES: &str = "\
    gen 1 => gen units=1 requests=265 types=164 items=28 names=27 commits=0 replies=5a40c802\n\
    gen 1 --seed 0 => gen units=1 requests=265 types=170 items=25 names=22 commits=0 replies=8973c683\n\
    gen 2 --seed 4294967295 => gen units=2 requests=465 types=271 items=42 names=40 commits=0 replies=52f664ae";

// What a line of words prints over a device of which the first call would fail, and to which none is
// made.
fn printed(alloc: Global, keys: RandomState, line: &str) -> Result<String, Fail> {
    let device = device_with(alloc, &[], &[0])?;
    let (text, status, device) = run_line(alloc, keys, line, "", device)?;
    if status != Status::Ok || device.calls() != 0 || device.faults() != 0 {
        return Err(Fail::new("the device was asked"));
    }
    Ok(String::from_utf8_lossy(alloc, &text)?)
}

#[test]
fn lines_of_drawn_sessions(rt: HostRuntime) -> Result<(), Fail> {
    let alloc = rt.alloc();
    let keys = RandomState::new(&rt)?;
    for case in LINES.split('\n') {
        let (line, want) = case.split_once(" => ").ok_or("a line and what it prints")?;
        let text = printed(alloc, keys, line)?;
        assert_eq!(rt; text.as_str().trim(), want, "{line}");
    }
    Ok(())
}

#[test]
fn a_sink_that_fails(rt: HostRuntime) -> Result<(), Fail> {
    let alloc = rt.alloc();
    let keys = RandomState::new(&rt)?;
    let mut source = MemSource::new(Vec::new(alloc), 1, Vec::new(alloc));
    let mut sink = MemSink::new(alloc, Vec::from_slice(alloc, &[0])?);
    let words = words_of(alloc, "gen 1")?;
    let device = device_with(alloc, &[], &[])?;
    let status = run(alloc, keys, &words, &mut source, &mut sink, device).0;
    assert_eq!(rt; status, Status::WriteFault);
    assert!(rt; sink.taken().is_empty());
    Ok(())
}
