//! Threads over one hub: their journal is judged, and the file is opened.
use crate::files::{Left, types_at_last_begin, words_of};
use crate::{Seats, add_and_commit, end, make_hub};
use core_model::{Verdict, replay};
use hub::Ended;
use srv_edge::{Limits, MemDevice};
use std::alloc::Global;
use std::hash::RandomState;
use std::process::Abort;
use std::sync::Wait;
use std::test::Fail;
use std::thread::Threads;

// Two callers add while the third commits.
fn play<R: Threads + Wait + Sync>(
    rt: &R,
    alloc: Global,
    keys: RandomState,
) -> Result<Ended<MemDevice>, Fail> {
    let Some(seats) = make_hub(alloc, keys, Limits::STANDARD) else {
        return Err(Fail::new("no hub"));
    };
    let Seats {
        hub,
        first,
        one,
        two,
        three,
    } = seats;
    let ((one, two), three) = add_and_commit(rt, &hub, one, two, three);
    Ok(end(Seats {
        hub,
        first,
        one,
        two,
        three,
    }))
}

// The verdict on these words, as the journal of what a hub leaves.
fn verdict_on(rt: &impl Abort, ended: &Ended<MemDevice>, words: &[u64]) -> Verdict {
    assert!(rt; words.len() < 100_000);
    let tables = &ended.book.tables;
    let start = (ended.start.types, ended.start.items, ended.start.names);
    replay(
        tables.types.records(),
        tables.items.records(),
        &[],
        start,
        words,
    )
}

#[test]
fn threads_that_add_and_commit(rt: HostRuntime) -> Result<(), Fail> {
    let alloc = rt.alloc();
    let keys = RandomState::new(&rt)?;
    let ended = play(&rt, alloc, keys)?;
    let words = words_of(alloc, &ended.journal)?;
    assert_eq!(rt; verdict_on(&rt, &ended, &words), Verdict::Legal);
    assert_eq!(rt; (words.len(), ended.book.tables.types.len()), (210, 150));
    let left = Left::of(alloc, keys, ended)?;
    assert_eq!(rt; (left.acked, left.age), (6, 6));
    assert_eq!(rt; left.types, types_at_last_begin(&words));
    Ok(())
}
