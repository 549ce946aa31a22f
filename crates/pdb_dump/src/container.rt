ghost use Rattle.std.specs.Prelude.{◌≡◌, ◌++◌, IfOk, OnOk, decimal};
ghost use Rattle.pdb_dump.specs.Container.{container_text, damage_text};

use itoa::Buffer;
use msf_image::{DamageKind, Image};
use std::alloc::{AllocError, Global};

/// The line of a file that reads as a container: its block size, and how many blocks, streams and
/// free blocks it has.
pub fn container_text(alloc: Global, image: &Image) -> Result<Vec<u8>, AllocError>
    ensures { IfOk result (λ line. line.items ≡ container_text image.now) }
{
    let mut line = Vec::new(alloc);
    put(&mut line, b"msf block=", u64::from(image.head.block))?;
    put(&mut line, b" blocks=", u64::from(image.head.blocks))?;
    put(&mut line, b" streams=", u64::from(image.directory.len()))?;
    put(&mut line, b" free=", u64::from(image.free.len()))?;
    line.extend_from_slice(b"\n")?;
    Ok(line)
}

/// The line of a damage: its kind and its place.
pub fn damage_text(alloc: Global, kind: DamageKind, place: u64) -> Result<Vec<u8>, AllocError>
    ensures { IfOk result (λ line. line.items ≡ damage_text kind place) }
{
    let mut line = Vec::from_slice(alloc, b"damage ")?;
    line.extend_from_slice(kind.name().as_bytes())?;
    put(&mut line, b" ", place)?;
    line.extend_from_slice(b"\n")?;
    Ok(line)
}

/// Puts a label and a decimal number behind a line.
pub(crate) fn put(line: &mut Vec<u8>, label: &[u8], n: u64) -> Result<(), AllocError>
    ensures { OnOk result (line.new.items ≡ line.old.items ++ label.now ++ decimal n) }
{
    let mut digits = Buffer::new();
    line.extend_from_slice(label)?;
    line.extend_from_slice(digits.format(n).as_bytes())
}
