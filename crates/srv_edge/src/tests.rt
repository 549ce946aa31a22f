ghost use Rattle.std.specs.Prelude.{◌≤◌, ◌<◌, ◌^◌};

use crate::ahead::Ahead;
use crate::held::Held;
use crate::{
    Accepted, CallKind, Device, Door, FileDevice, Link, MemDevice, SessionEnd, Sink, Source,
    StillDevice, UnixDoor,
};
use std::alloc::{AllocError, Global};
use std::fs::{File, Metadata, OpenFile};
use std::io::{Read, Write};
use std::net::Net;
use std::os::unix::fs::{FileExt, FileTypeExt, PermissionsExt};
use std::os::unix::net::UnixStream;
use std::process::Abort;
use std::test::Fail;
use std::{fs, io};

// A file with the same byte in each place of its head, zeros up to 512, and then these bytes.
fn file_of(alloc: Global, head: u8, rest: &[u8], fill: u8) -> Result<Vec<u8>, AllocError> {
    let mut file = vec![in alloc; 0; 512]?;
    for byte in file[..56].iter_mut() {
        *byte = head;
    }
    for byte in rest {
        file.push(if *byte == b'?' { fill } else { *byte })?;
    }
    Ok(file)
}

// The calls of the tests, and which of them answered Ok.
fn make_calls<D: Device>(device: &mut D) -> [bool; 12] {
    let mut ok = [false; 12];
    ok[0] = device.write(513, b"XY").is_ok();
    ok[1] = device.write(517, b"PQ").is_ok();
    ok[2] = device.sync().is_ok();
    ok[3] = device.write_super(&[b's'; 56]).is_ok();
    ok[4] = device.write(512, b"mn").is_ok();
    ok[5] = device.sync().is_ok();
    ok[6] = device.write_super(&[b't'; 56]).is_ok();
    if let Ok(size) = device.size() {
        ok[7] = true;
        if size >= 516 {
            ok[8] = device.read(512, &mut [0; 4]).is_ok();
        }
    }
    ok[9] = device.write_super(&[b'u'; 56]).is_ok();
    ok[10] = device.write(518, b"z").is_ok();
    ok[11] = device.sync().is_ok();
    ok
}

fn device_of(alloc: Global, fail: &[u32]) -> Result<MemDevice, AllocError> {
    let file = file_of(alloc, b'h', b"abcd", 0)?;
    Ok(MemDevice::new(alloc, file, fail.to_vec(alloc)?))
}

// What a crash may leave after each of the calls, of which three failed: the head where no head
// that is not settled is there, the head where all are, and what is behind the head, with a ? for
// the fill.
const IMAGES: [(u8, u8, &[u8]); 13] = [
    (b'h', b'h', b"abcd"),
    (b'h', b'h', b"a??d"),
    (b'h', b'h', b"a??d???"),
    (b'h', b'h', b"a??d???"),
    (b'h', b's', b"a??d???"),
    (b'h', b's', b"???d???"),
    (b's', b's', b"aXYd\0PQ"),
    (b's', b't', b"aXYd\0PQ"),
    (b's', b't', b"aXYd\0PQ"),
    (b's', b't', b"aXYd\0PQ"),
    (b's', b'u', b"aXYd\0PQ"),
    (b's', b'u', b"aXYd\0P?"),
    (b'u', b'u', b"aXYd\0Pz"),
];

#[test]
fn images_after_each_call(rt: HostRuntime) -> Result<(), Fail> {
    let mut device = device_of(rt.alloc(), &[2, 4, 6])?;
    let ok = make_calls(&mut device);
    let want = [
        true, true, false, true, false, true, false, true, true, true, true, true,
    ];
    assert_eq!(rt; ok, want);
    assert_eq!(rt; device.faults(), 3);
    let mut calls = 0;
    for (none, all, rest) in IMAGES {
        assert!(rt; calls <= device.calls());
        for fill in [0, 255, 165] {
            let image = device.image(calls, fill, false)?;
            assert_eq!(rt;
                image,
                file_of(rt.alloc(), none, rest, fill)?,
                "after {calls}"
            );
            let image = device.image(calls, fill, true)?;
            assert_eq!(rt;
                image,
                file_of(rt.alloc(), all, rest, fill)?,
                "after {calls}"
            );
        }
        calls = calls.saturating_add(1);
    }
    assert_eq!(rt; device.calls(), 12);
    Ok(())
}

#[test]
fn kinds_of_the_calls(rt: HostRuntime) -> Result<(), Fail> {
    let mut device = device_of(rt.alloc(), &[])?;
    let _ok = make_calls(&mut device);
    let want = [
        CallKind::Write { at: 513 },
        CallKind::Write { at: 517 },
        CallKind::Sync,
        CallKind::Super,
        CallKind::Write { at: 512 },
        CallKind::Sync,
        CallKind::Super,
        CallKind::Size,
        CallKind::Read { at: 512 },
        CallKind::Super,
        CallKind::Write { at: 518 },
        CallKind::Sync,
    ];
    for (call, kind) in (0..).zip(want) {
        assert_eq!(rt; device.kind_at(call), Some(kind), "at {call}");
    }
    assert_eq!(rt; device.kind_at(12), None);
    Ok(())
}

// Where one call is to fail it alone fails, and each is kept.
#[test]
fn each_call_failing_in_turn(rt: HostRuntime) -> Result<(), Fail> {
    for failing in 0..12 {
        let mut device = device_of(rt.alloc(), &[failing])?;
        let ok = make_calls(&mut device);
        for (call, ok) in (0..).zip(ok) {
            let unasked = failing == 7 && call == 8;
            assert_eq!(rt;
                ok,
                call != failing && !unasked,
                "{call} where {failing} fails"
            );
        }
        assert_eq!(rt; device.faults(), 1);
        assert_eq!(rt; device.calls(), if failing == 7 { 11 } else { 12 });
    }
    Ok(())
}

// A device of 5 bytes with room for 600.
fn still(alloc: Global) -> Result<StillDevice, AllocError> {
    StillDevice::new(alloc, b"abcde".to_vec(alloc)?, 600)
}

#[test]
fn still_device_at_the_end_of_its_room(rt: HostRuntime) -> Result<(), Fail> {
    let mut device = still(rt.alloc())?;
    assert_eq!(rt; device.size().ok(), Some(5));
    assert!(rt; device.write(598, b"yz").is_ok());
    assert_eq!(rt; device.faults(), 0);
    assert!(rt; device.write(599, b"yz").is_err());
    assert_eq!(rt; device.faults(), 1);
    assert_eq!(rt; device.size().ok(), Some(600));
    let mut out = [1; 3];
    assert!(rt; device.read(597, &mut out).is_ok());
    assert_eq!(rt; out, [0, b'y', b'z']);
    assert!(rt; device.read(598, &mut out).is_err());
    assert!(rt; device.read(u64::MAX, &mut out).is_err());
    assert_eq!(rt; device.faults(), 3);
    assert!(rt; device.write_super(&[b'h'; 56]).is_ok());
    assert!(rt; device.sync().is_ok());
    assert!(rt; device.read(54, &mut out).is_ok());
    assert_eq!(rt; out, [b'h', b'h', 0]);
    Ok(())
}

#[test]
fn still_device_with_no_room_for_a_head(rt: HostRuntime) -> Result<(), Fail> {
    let mut device = StillDevice::new(rt.alloc(), Vec::new(rt.alloc()), 55)?;
    assert!(rt; device.write_super(&[0; 56]).is_err());
    assert_eq!(rt; device.faults(), 1);
    let mut device = StillDevice::new(rt.alloc(), Vec::new(rt.alloc()), 56)?;
    assert!(rt; device.write_super(&[0; 56]).is_ok());
    assert_eq!(rt; device.faults(), 0);
    Ok(())
}

// A file of 1,000 bytes that reads and writes one byte a call, and cannot sync its length.
#[derive(Drop)]
struct Slow;

impl FileExt for Slow {
    fn read_at(&self, buf: &mut [u8], offset: u64) -> io::Result<usize> {
        if offset >= 1_000 || buf.is_empty() {
            return Ok(0);
        }
        buf[0] = (offset % 256) as u8;
        Ok(1)
    }

    fn write_at(&self, buf: &[u8], _offset: u64) -> io::Result<usize> {
        Ok(buf.len().min(1))
    }
}

impl OpenFile for Slow {
    fn metadata(&self) -> io::Result<Metadata> {
        Ok(Metadata::of_file(1_000))
    }

    fn set_len(&self, _size: u64) -> io::Result<()> {
        Err(io::Error::from(io::ErrorKind::Unsupported))
    }

    fn sync_all(&self) -> io::Result<()> {
        Err(io::Error::from(io::ErrorKind::Unsupported))
    }

    fn sync_data(&self) -> io::Result<()> {
        Ok(())
    }
}

#[test]
fn a_slow_file_is_read_on(rt: HostRuntime) {
    let mut device = FileDevice::new(Slow);
    assert_eq!(rt; device.size().ok(), Some(1_000));
    let mut out = [0; 3];
    assert!(rt; device.read(997, &mut out).is_ok());
    assert_eq!(rt; out, [229, 230, 231]);
    assert!(rt; device.write(512, b"abc").is_ok());
    assert_eq!(rt; device.faults(), 0);
    assert!(rt; device.read(998, &mut out).is_err());
    assert!(rt; device.write_super(&[0; 56]).is_err());
    assert!(rt; device.sync().is_err());
    assert_eq!(rt; device.faults(), 3);
}

#[test]
fn an_absent_file_fails_at_each_call(rt: HostRuntime) {
    let mut device: FileDevice<File> = FileDevice::absent();
    assert!(rt; device.size().is_err());
    assert!(rt; device.read(0, &mut [0; 1]).is_err());
    assert!(rt; device.write(512, b"a").is_err());
    assert!(rt; device.write_super(&[0; 56]).is_err());
    assert!(rt; device.sync().is_err());
    assert_eq!(rt; device.faults(), 5);
}

// A file of the system: what is written is read again, and stands in the file.
#[test]
fn a_real_file(rt: HostRuntime) -> Result<(), Fail> {
    let folder = std::env::temp_dir(&rt)?;
    let id = std::process::id(rt.process());
    let path = format!(in rt.alloc(); "{}/srv_edge-{id}.pdb", folder.as_str())?;
    let mut device = FileDevice::new(File::create_new(&rt, path.as_str())?);
    assert!(rt; device.write(512, b"abcd").is_ok());
    assert!(rt; device.write_super(&[b'h'; 56]).is_ok());
    assert!(rt; device.sync().is_ok());
    assert_eq!(rt; device.size().ok(), Some(516));
    let mut out = [0; 4];
    assert!(rt; device.read(512, &mut out).is_ok());
    assert_eq!(rt; out, *b"abcd");
    assert_eq!(rt; device.faults(), 0);
    assert!(rt; device.read(513, &mut out).is_err());
    assert_eq!(rt; device.faults(), 1);
    let text = std::fs::read(&rt, path.as_str())?;
    std::fs::remove_file(&rt, path.as_str())?;
    assert_eq!(rt; text, file_of(rt.alloc(), b'h', b"abcd", 0)?);
    Ok(())
}

// Five thousand calls are kept, one of which fails: 2,500 writes of a byte each, a sync, and writes
// behind it, which are not settled.
#[test]
fn thousands_of_calls_are_kept(rt: HostRuntime) -> Result<(), Fail> {
    let alloc = rt.alloc();
    let mut device = MemDevice::new(alloc, file_of(alloc, 0, b"", 0)?, vec![in alloc; 4000; 1]?);
    for k in 0..2500u64 {
        assert!(rt; device.write(512 + k, &[(k % 251) as u8]).is_ok());
    }
    assert!(rt; device.sync().is_ok());
    for k in 2501..5000u64 {
        assert_eq!(rt; device.write(512 + k, &[1]).is_ok(), k != 4000);
    }
    assert_eq!(rt; (device.calls(), device.faults()), (5000, 1));
    let mut want = file_of(alloc, 0, b"", 0)?;
    for k in 0..5000u64 {
        want.push(if k < 2500 { (k % 251) as u8 } else { 0xee })?;
    }
    let calls = device.calls();
    assert_eq!(rt; device.image(calls, 0xee, false)?, want);
    assert_eq!(rt; device.kind_at(4000), Some(CallKind::Write { at: 4512 }));
    assert_eq!(rt; device.kind_at(4999), Some(CallKind::Write { at: 5511 }));
    Ok(())
}

// A stream that gives ten bytes, then five, and then ends.
#[derive(Drop)]
struct TwoPieces {
    reads: u32,
}

impl Read for TwoPieces {
    fn read(&mut self, buf: &mut [u8]) -> io::Result<usize> {
        let piece: &[u8] = match self.reads {
            0 => b"abcdefghij",
            1 => b"klmno",
            _ => b"",
        };
        self.reads = self.reads.saturating_add(1);
        let n = buf.len().min(piece.len());
        buf[..n].copy_from_slice(&piece[..n]);
        Ok(n)
    }
}

// Each piece takes one read, in however many takes it is asked for.
#[test]
fn bytes_are_read_ahead(rt: HostRuntime) {
    let mut stream = TwoPieces { reads: 0 };
    let mut ahead = Ahead::new();
    let mut into = [0; 6];
    let table: [(usize, &[u8], u32); 6] = [
        (4, b"abcd", 1),
        (6, b"efghij", 1),
        (2, b"kl", 2),
        (2, b"mn", 2),
        (2, b"o", 2),
        (6, b"", 3),
    ];
    for (room, want, reads) in table {
        assert!(rt; 0 < room && room <= into.len());
        let n = ahead.read(&mut stream, &mut into[..room]).ok();
        assert_eq!(rt; n, Some(want.len()));
        assert!(rt; want.len() <= into.len());
        assert_eq!(rt; &into[..want.len()], want);
        assert_eq!(rt; stream.reads, reads);
    }
}

// A stream that counts its writes and takes all.
#[derive(Drop)]
struct Counted {
    writes: u32,
    bytes: usize,
}

impl Write for Counted {
    fn write(&mut self, buf: &[u8]) -> io::Result<usize> {
        self.writes = self.writes.saturating_add(1);
        self.bytes = self.bytes.saturating_add(buf.len());
        Ok(buf.len())
    }

    fn flush(&mut self) -> io::Result<()> {
        Ok(())
    }
}

// Bytes are held up to the limit, and go out together.
#[test]
fn bytes_are_held(rt: HostRuntime) {
    let mut stream = Counted {
        writes: 0,
        bytes: 0,
    };
    let mut held = Held::new();
    let zeros = [0; 16_385];
    let table: [(usize, u32, usize); 5] = [
        (16_000, 0, 0),
        (384, 0, 0),
        (1, 1, 16_384),
        (16_384, 2, 16_385),
        (16_385, 4, 49_154),
    ];
    for (n, writes, bytes) in table {
        assert!(rt; n <= zeros.len());
        assert_eq!(rt; held.put(&mut stream, &zeros[..n]).ok(), Some(n));
        assert_eq!(rt; (stream.writes, stream.bytes), (writes, bytes));
    }
    assert_eq!(rt; held.put(&mut stream, b"abc").ok(), Some(3));
    assert!(rt; held.write_out(&mut stream).is_ok() && held.is_empty());
    assert_eq!(rt; (stream.writes, stream.bytes), (5, 49_157));
}

// Serves two clients. One has the end of its stream before its link is given back, and one is gone
// before it has its reply, which is a write fault.
fn serve_two<R: Abort + Net>(
    rt: &R,
    alloc: Global,
    path: &str,
    door: &mut UnixDoor,
) -> Result<(), Fail>
    requires few { ⟦<UnixDoor as Door>⟧.handed door.old < 2 ^ 62 }
    requires returned { ⟦<UnixDoor as Door>⟧.returned door.old
        ≤ ⟦<UnixDoor as Door>⟧.handed door.old }
{
    let mut first = UnixStream::connect(rt, path)?;
    let mut second = UnixStream::connect(rt, path)?;
    first.write_all(b"abcde")?;
    second.write_all(b"x")?;
    let (Accepted::Link(mut one), Accepted::Link(mut two)) = (door.accept(), door.accept()) else {
        return Err(Fail::new("no client came"));
    };
    let mut into = [0; 8];
    assert_eq!(rt; one.take(&mut into[..3]).ok(), Some(3));
    assert_eq!(rt; one.give(b"re").ok(), Some(2));
    assert_eq!(rt; one.take(&mut into[3..]).ok(), Some(2));
    assert_eq!(rt; two.take(&mut into[5..]).ok(), Some(1));
    assert_eq!(rt; into, *b"abcdex\0\0");
    assert_eq!(rt; one.give(b"ply").ok(), Some(3));
    one.shutdown();
    let mut got = Vec::new(alloc);
    first.read_to_end(&mut got)?;
    assert_eq!(rt; got.as_slice(), b"reply".as_slice());
    drop(second);
    assert!(rt; two.give(b"y").is_err());
    door.done(one, SessionEnd::Bye);
    door.done(two, SessionEnd::WriteFault);
    Ok(())
}

// A socket is private, and a second server at it is refused and costs no session. One that was left
// is replaced, and one that was closed is gone. What is no socket stays.
#[test]
fn a_real_socket(rt: HostRuntime) -> Result<(), Fail> {
    let alloc = rt.alloc();
    let folder = std::env::temp_dir(&rt)?;
    let id = std::process::id(rt.process());
    let path = format!(in alloc; "{}/srv_edge-{id}.socket", folder.as_str())?;
    let path = path.as_str();
    let mut door = UnixDoor::listen(&rt, alloc, path)?;
    let there = fs::symlink_metadata(&rt, path)?;
    assert!(rt; there.file_type().is_socket());
    assert_eq!(rt; there.permissions().mode() & 0o777, 0o600);
    let mut second = UnixDoor::listen(&rt, alloc, path)?;
    assert!(rt; matches!(second.accept(), Accepted::Failed));
    serve_two(&rt, alloc, path, &mut door)?;

    drop(door);
    assert!(rt; UnixStream::connect(&rt, path).is_err());
    let door = UnixDoor::listen(&rt, alloc, path)?;
    let _client = UnixStream::connect(&rt, path)?;
    door.close(&rt);
    assert!(rt; fs::symlink_metadata(&rt, path).is_err());
    fs::write(&rt, path, b"no socket")?;
    let mut door = UnixDoor::listen(&rt, alloc, path)?;
    assert!(rt; matches!(door.accept(), Accepted::Failed));
    assert_eq!(rt; fs::read(&rt, path)?.as_slice(), b"no socket".as_slice());
    fs::remove_file(&rt, path)?;
    Ok(())
}
