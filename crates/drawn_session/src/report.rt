ghost use Rattle.std.specs.Prelude.{◌≡◌, ◌≤◌, ◌++◌, IfOk, OnOk, decimal};
ghost use Rattle.drawn_session.specs.Line.{line_text};

use byteorder::{BigEndian, ByteOrder};
use itoa::Buffer;
use std::alloc::{AllocError, Global};

/// What came of a session.
#[derive(Clone, Copy, Debug, PartialEq, Eq)]
pub struct Outcome {
    pub types: u32,
    pub items: u32,
    pub names: u32,
    /// The hash of all replies.
    pub hash: u32,
}

/// The line of a session of so many units.
pub fn line(alloc: Global, units: u32, outcome: Outcome) -> Result<Vec<u8>, AllocError>
    requires { units ≤ 10000 }
    ensures { IfOk result (λ line. line.items ≡ line_text units outcome) }
{
    let commits = units / 100;
    let mut hash = [0; 4];
    BigEndian::write_u32(&mut hash, outcome.hash);
    let mut line = Vec::new(alloc);
    put(&mut line, b"gen units=", units)?;
    put(&mut line, b" requests=", 64 + 200 * units + commits + 1)?;
    put(&mut line, b" types=", outcome.types)?;
    put(&mut line, b" items=", outcome.items)?;
    put(&mut line, b" names=", outcome.names)?;
    put(&mut line, b" commits=", commits)?;
    line.extend_from_slice(b" replies=")?;
    line.extend_from_slice(hex::encode(alloc, hash.as_slice())?.as_bytes())?;
    line.extend_from_slice(b"\n")?;
    Ok(line)
}

// Puts a label and a decimal number behind a line.
fn put(line: &mut Vec<u8>, label: &[u8], n: u32) -> Result<(), AllocError>
    ensures { OnOk result (line.new.items ≡ line.old.items ++ label.now ++ decimal n) }
{
    let mut digits = Buffer::new();
    line.extend_from_slice(label)?;
    line.extend_from_slice(digits.format(n).as_bytes())
}
