//! Two callers who meet, and two whose calls cross.
ghost use Rattle.std.specs.Prelude.{◌≡◌, []};

use crate::files::{Left, R};
use crate::{Within, add_within, end, get_what_was_met, make_hub};
use hub::Ended;
use srv_edge::{Limits, MemDevice, Piece, Refusal};
use std::alloc::Global;
use std::hash::RandomState;
use std::sync::Wait;
use std::test::Fail;

// The one adds, and the other gets behind its note.
fn play_meeting(
    rt: &impl Wait,
    alloc: Global,
    keys: RandomState,
    out: &mut Piece,
) -> Result<(Result<u32, Refusal>, Ended<MemDevice>), Fail>
    requires { out.old ≡ [] }
{
    let Some(mut seats) = make_hub(alloc, keys, Limits::STANDARD) else {
        return Err(Fail::new("no hub"));
    };
    let told = get_what_was_met(rt, &seats.hub, &mut seats.one, &mut seats.two, R, out);
    Ok((told, end(seats)))
}

#[test]
fn a_note_is_met(rt: HostRuntime) -> Result<(), Fail> {
    let alloc = rt.alloc();
    let keys = RandomState::new(&rt)?;
    let mut piece = Piece::new(alloc)?;
    let (told, ended) = play_meeting(&rt, alloc, keys, &mut piece)?;
    let left = Left::of(alloc, keys, ended)?;
    assert_eq!(rt; told, Ok(0x1000));
    assert_eq!(rt; piece.bytes(), R);
    assert_eq!(rt; left.words.as_slice(), MEETING.as_slice());
    Ok(())
}

// The words of an add of the one and of a get of the other.
static MEETING: [u64; 2] = [0x0101000000001000, 0x0204000000001000];

// The one commits, and the other asks for a commit and adds before that is written.
fn play_within(
    rt: &impl Wait,
    alloc: Global,
    keys: RandomState,
) -> Result<(Result<Within, Refusal>, Ended<MemDevice>), Fail> {
    let Some(mut seats) = make_hub(alloc, keys, Limits::STANDARD) else {
        return Err(Fail::new("no hub"));
    };
    let told = add_within(rt, &seats.hub, &mut seats.one, &mut seats.two, R);
    Ok((told, end(seats)))
}

// What is told there.
const TOLD: Within = Within {
    number: 2,
    second: Err(Refusal::Underway { number: 2 }),
    added: Ok(0x1000),
    ended: Ok(2),
};

// The add stands between the two entries of the commit, and is not in the file.
#[test]
fn an_add_within_a_commit(rt: HostRuntime) -> Result<(), Fail> {
    let alloc = rt.alloc();
    let keys = RandomState::new(&rt)?;
    let (told, ended) = play_within(&rt, alloc, keys)?;
    let left = Left::of(alloc, keys, ended)?;
    assert_eq!(rt; told, Ok(TOLD));
    assert_eq!(rt; left.words.as_slice(), WITHIN.as_slice());
    assert_eq!(rt; (left.acked, left.age, left.types), (2, 2, 0));
    Ok(())
}

// The words of a commit that begins, of the other's refused one, of its add, and of the commit's end.
static WITHIN: [u64; 4] = [
    0x010A000000000002,
    0x020C000000000002,
    0x0201000000001000,
    0x010B000100000002,
];
