//! The requests of a drawn session, one behind another.

ghost use Rattle.std.specs.Prelude.{◌≡◌, ◌≤◌, ◌++◌, IfOk, OnOk};
ghost use Rattle.std.specs.List.{flat_map};
ghost use Rattle.request_frames.specs.Requests.{FitsFrame, IsAsked, asked};
ghost use Rattle.drawn_session.specs.Draws.{number_behind};
ghost use Rattle.drawn_session.specs.Requests.{commit_behind, first_requests, request_bytes, request_of, session_bytes, unit_behind, unit_requests};

use crate::draws::Draws;
use crate::records::{modifier, name_of, string_of};
use request_frames::{Head, Request, write_request};
use std::alloc::{AllocError, Global};

/// The first of the types that a session is given.
const FIRST_INDEX: u32 = 0x1000;

/// The frames of a session of so many units, drawn from a seed.
pub fn session_bytes(alloc: Global, units: u32, seed: u32) -> Result<Vec<u8>, AllocError>
    ensures { IfOk result (λ bytes. bytes.items ≡ session_bytes units seed) }
{
    let mut bytes = Vec::new(alloc);
    put_first(alloc, &mut bytes)?;
    put_units(alloc, units, seed, &mut bytes)?;
    put(&Request::Bye, &mut bytes)?;
    Ok(bytes)
}

// Puts the frame of a request behind what is there.
fn put(request: &Request, bytes: &mut Vec<u8>) -> Result<(), AllocError>
    requires asked { IsAsked 1 (asked request.now) }
    requires fits { FitsFrame (asked request.now) }
    ensures { OnOk result
        (bytes.new.items ≡ bytes.old.items ++ request_bytes (asked request.now)) }
{
    let head = Head { version: 1, tag: 0 };
    write_request(head, request, bytes)
}

// Puts the requests before the first unit.
fn put_first(alloc: Global, bytes: &mut Vec<u8>) -> Result<(), AllocError>
    ensures { OnOk result
        (bytes.new.items ≡ bytes.old.items ++ flat_map request_bytes first_requests) }
{
    for attributes in 0..64 {
        let record = modifier(alloc, 0x74, attributes)?;
        put(&Request::AddType(&record), bytes)?;
    }
    Ok(())
}

// Puts the units, each hundredth with its commit.
fn put_units(alloc: Global, units: u32, seed: u32, bytes: &mut Vec<u8>) -> Result<(), AllocError>
    ensures { OnOk result
        (bytes.new.items ≡ bytes.old.items ++ flat_map request_bytes (unit_requests units seed)) }
{
    let mut draws = Draws {
        number: u64::from(seed),
    };
    for unit in 0..units {
        put_unit(alloc, &mut draws, bytes)?;
        put_commit(unit + 1, bytes)?;
    }
    Ok(())
}

// Puts the commit behind a unit.
fn put_commit(unit: u32, bytes: &mut Vec<u8>) -> Result<(), AllocError>
    ensures { OnOk result
        (bytes.new.items ≡ bytes.old.items ++ flat_map request_bytes (commit_behind unit)) }
{
    if unit % 100 == 0 {
        put(&Request::Commit, bytes)
    } else {
        Ok(())
    }
}

// Puts the requests of a unit.
fn put_unit(alloc: Global, draws: &mut Draws, bytes: &mut Vec<u8>) -> Result<(), AllocError>
    ensures unit { OnOk result (bytes.new.items
        ≡ bytes.old.items ++ flat_map request_bytes (unit_behind draws.old.number)) }
    ensures number { OnOk result (draws.new.number ≡ number_behind draws.old.number 200) }
{
    for _draw in 0..200_u32 {
        put_draw(alloc, draws.next(), bytes)?;
    }
    Ok(())
}

// Puts the request of a draw.
fn put_draw(alloc: Global, draw: u32, bytes: &mut Vec<u8>) -> Result<(), AllocError>
    ensures { OnOk result
        (bytes.new.items ≡ bytes.old.items ++ request_bytes (request_of draw)) }
{
    let index = FIRST_INDEX + draw % 64;
    let value = draw / 512;
    match draw / 64 % 8 {
        4 => put(&Request::AddItem(&string_of(alloc, value % 1000)?), bytes),
        5 => put(&Request::AddName(&name_of(alloc, value % 1000)?), bytes),
        6 => put(&Request::GetType(index), bytes),
        7 => put(&Request::Counts, bytes),
        _ => {
            let record = modifier(alloc, index, (value % 64) as u16)?;
            put(&Request::AddType(&record), bytes)
        }
    }
}
