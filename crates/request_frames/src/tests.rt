ghost use Rattle.srv_edge.specs.Frames.{IsHead};
ghost use Rattle.request_frames.specs.Requests.{FitsFrame, IsAsked, asked};

use crate::{
    Head, Part, Request, head_of, next_part, next_record, read_reply, read_request, write_refusal,
    write_request,
};
use srv_edge::{Piece, Refusal};
use std::alloc::Global;
use std::test::Fail;

// Whether a request is written as these bytes, and read again as itself.
fn goes_both_ways(alloc: Global, head: Head, request: Request<'_>, text: &str) -> Result<bool, Fail>
    requires head { IsHead head }
    requires asked { IsAsked head.version (asked request) }
    requires fits { FitsFrame (asked request) }
{
    let mut out = Vec::new(alloc);
    write_request(head, &request, &mut out)?;
    let written = hex::encode(alloc, out.as_slice())?;
    let Some(frame) = out.as_slice().get(4..) else {
        return Ok(false);
    };
    if frame.len() < 5 && (head.version == 2 || frame.is_empty()) {
        return Ok(false);
    }
    let again = read_request(head.version, frame);
    let again = format!(in alloc; "{again:?}")?;
    let same = format!(in alloc; "Ok({request:?})")?;
    let same_head = head_of(head.version, frame) == head;
    Ok(written.as_str() == text && again.as_str() == same.as_str() && same_head)
}

#[test]
fn requests_both_ways(rt: HostRuntime) -> Result<(), Fail> {
    let alloc = rt.alloc();
    let one = Head { version: 1, tag: 0 };
    let two = Head { version: 2, tag: 7 };
    assert!(rt; goes_both_ways(alloc, one, Request::Hello(1), "03000000010100")?);
    assert!(rt; goes_both_ways(alloc, one, Request::AddType(b"ab"), "03000000026162")?);
    assert!(rt; goes_both_ways(alloc, one, Request::AddItem(b"ab"), "03000000036162")?);
    assert!(rt; goes_both_ways(alloc, one, Request::AddName(b""), "0100000004")?);
    assert!(rt; goes_both_ways(alloc, one, Request::GetType(0x1000), "050000000500100000")?);
    assert!(rt; goes_both_ways(alloc, one, Request::GetItem(0x1000), "050000000600100000")?);
    assert!(rt; goes_both_ways(alloc, one, Request::GetName(3), "050000000703000000")?);
    assert!(rt; goes_both_ways(alloc, one, Request::Commit, "0100000008")?);
    assert!(rt; goes_both_ways(alloc, one, Request::Counts, "0100000009")?);
    assert!(rt; goes_both_ways(alloc, one, Request::Bye, "010000000a")?);
    assert!(rt; goes_both_ways(alloc, two, Request::Hello(2), "0700000001070000000200")?);
    assert!(rt; goes_both_ways(alloc, two, Request::Counts, "050000000907000000")?);
    Ok(())
}

// A list is read with its tag, and its records one by one; a cut one is none.
#[test]
fn lists_and_parts(rt: HostRuntime) -> Result<(), Fail> {
    let table = [
        ("0b07000000020061620100", "Err(Body)"),
        ("0b0700000002006162", "Ok(AddTypes([2, 0, 97, 98]))"),
        ("0c07000000010061", "Ok(AddItems([1, 0, 97]))"),
        ("0c0700000000000000", "Ok(AddItems([0, 0, 0, 0]))"),
        ("0b07000000", "Err(Body)"),
        ("0807000000", "Ok(Commit)"),
        ("080700000000", "Err(Body)"),
        ("0d07000000", "Err(Kind)"),
    ];
    for (text, want) in table {
        let bytes = hex::decode(rt.alloc(), text)?;
        assert!(rt; bytes.len() >= 5);
        let request = read_request(2, &bytes);
        let got = format!(in rt.alloc(); "{request:?}")?;
        assert_eq!(rt; got.as_str(), want);
    }
    assert_eq!(rt; next_record(&[1, 0, 97, 0, 0], 0), Some(&[1, 0, 97][..]));
    assert_eq!(rt; next_record(&[1, 0, 97, 0, 0], 3), Some(&[0, 0][..]));
    assert_eq!(rt; next_record(&[1, 0, 97, 0, 0], 4), None);
    let parts = hex::decode(rt.alloc(), "00001000000000000005010000000010000000")?;
    assert!(rt; parts.len() == 19);
    let first = Part {
        code: 0,
        a: 0x1000,
        b: 0,
    };
    let second = Part {
        code: 5,
        a: 1,
        b: 0x1000,
    };
    assert_eq!(rt; next_part(&parts, 0), Some(first));
    assert_eq!(rt; next_part(&parts, 9), Some(second));
    assert_eq!(rt; next_part(&parts, 18), None);
    Ok(())
}

// Replies are read by their kinds, and what is none is refused.
#[test]
fn replies_by_their_kinds(rt: HostRuntime) -> Result<(), Fail> {
    let table = [
        ("810100", "Ok(Hello(1))"),
        ("810200", "Ok(Hello(2))"),
        ("8200100000", "Ok(AddedType(4096))"),
        ("8300100000", "Ok(AddedItem(4096))"),
        ("8403000000", "Ok(AddedName(3))"),
        ("856162", "Ok(GotType([97, 98]))"),
        ("866162", "Ok(GotItem([97, 98]))"),
        ("876263", "Ok(GotName([98, 99]))"),
        ("8802000000", "Ok(Committed(2))"),
        ("89010000000000000002000000", "Ok(Counted(1, 0, 2))"),
        ("8a", "Ok(Bye)"),
        (
            "ff050000000000100000",
            "Ok(Refused { code: 5, a: 0, b: 4096 })",
        ),
        ("85", "Ok(GotType([]))"),
        ("87", "Ok(GotName([]))"),
        ("810000", "Err(Body)"),
        ("810300", "Err(Body)"),
        ("8101", "Err(Body)"),
        ("87610062", "Err(Body)"),
        ("8900", "Err(Body)"),
        ("8a00", "Err(Body)"),
        ("82001000", "Err(Body)"),
        ("ff0500000000001000", "Err(Body)"),
        ("ff000000000000000000", "Err(Body)"),
        ("ff0a0000000000000000", "Err(Body)"),
        ("8b000000000000000000", "Err(Kind)"),
        ("880200", "Err(Body)"),
        ("8d02000000", "Err(Kind)"),
        ("02", "Err(Kind)"),
    ];
    for (text, want) in table {
        let bytes = hex::decode(rt.alloc(), text)?;
        assert!(rt; !bytes.is_empty());
        let reply = read_reply(1, &bytes).map(|read| read.1);
        let got = format!(in rt.alloc(); "{reply:?}")?;
        assert_eq!(rt; got.as_str(), want);
    }
    let bytes = hex::decode(rt.alloc(), "8b07000000000010000000000000")?;
    assert!(rt; bytes.len() >= 5);
    let reply = read_reply(2, &bytes);
    let got = format!(in rt.alloc(); "{reply:?}")?;
    let parts = "Parts { space: 0, parts: [0, 0, 16, 0, 0, 0, 0, 0, 0] }";
    let want = format!(in rt.alloc(); "Ok((Head {{ version: 2, tag: 7 }}, {parts}))")?;
    assert_eq!(rt; got.as_str(), want.as_str());
    Ok(())
}

// A refusal as it is written.
fn refused(alloc: Global, refusal: Refusal) -> Result<Piece, Fail> {
    let mut out = Piece::new(alloc)?;
    write_refusal(Head { version: 1, tag: 0 }, &refusal, &mut out);
    Ok(out)
}

// Each refusal is written with its code and its numbers, and read again with them.
#[test]
fn refusals_both_ways(rt: HostRuntime) -> Result<(), Fail> {
    let malformed = Refusal::Malformed { at: 14, what: 3 };
    let not_given = Refusal::NotGiven {
        space: 1,
        index: 0x1001,
    };
    let full = Refusal::Full {
        which: 2,
        needed: 24,
    };
    let table = [
        (malformed, "0a000000ff040e00000003000000", "4, a: 14, b: 3"),
        (
            not_given,
            "0a000000ff050100000001100000",
            "5, a: 1, b: 4097",
        ),
        (full, "0a000000ff060200000018000000", "6, a: 2, b: 24"),
        (
            Refusal::OutOfMemory,
            "0a000000ff070000000000000000",
            "7, a: 0, b: 0",
        ),
        (
            Refusal::DiskFault { number: 9 },
            "0a000000ff080900000000000000",
            "8, a: 9, b: 0",
        ),
        (
            Refusal::Underway { number: 9 },
            "0a000000ff090900000000000000",
            "9, a: 9, b: 0",
        ),
    ];
    for (refusal, text, numbers) in table {
        let out = refused(rt.alloc(), refusal)?;
        assert_eq!(rt; hex::encode(rt.alloc(), out.bytes())?.as_str(), text);
        let Some(frame) = out.bytes().get(4..) else {
            return Err(Fail::new("no frame"));
        };
        assert!(rt; !frame.is_empty());
        let reply = read_reply(1, frame).map(|read| read.1);
        let got = format!(in rt.alloc(); "{reply:?}")?;
        let want = format!(in rt.alloc(); "Ok(Refused {{ code: {numbers} }})")?;
        assert_eq!(rt; got.as_str(), want.as_str());
    }
    Ok(())
}
