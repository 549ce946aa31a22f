//! The records and names of a drawn session.

ghost use Rattle.std.specs.Prelude.{◌≡◌, ◌<◌, IfOk, length};
ghost use Rattle.srv_edge.specs.Name.{IsName};
ghost use Rattle.drawn_session.specs.Records.{modifier, name_of, string_of};

use itoa::Buffer;
use srv_edge::{half, word};
use std::alloc::{AllocError, Global};

/// The modifier of a type with these attributes.
pub(crate) fn modifier(alloc: Global, index: u32, attributes: u16) -> Result<Vec<u8>, AllocError>
    ensures bytes { IfOk result (λ r. r.items ≡ modifier index attributes) }
    ensures length { IfOk result (λ r. length r.items ≡ 12) }
{
    let mut record = Vec::from_slice(alloc, &[10, 0, 1, 16])?;
    record.extend_from_slice(&word(index))?;
    record.extend_from_slice(&half(attributes))?;
    record.extend_from_slice(&[0xf2, 0xf1])?;
    Ok(record)
}

/// The string with the digits of a number.
pub(crate) fn string_of(alloc: Global, n: u32) -> Result<Vec<u8>, AllocError>
    requires { n < 1000 }
    ensures bytes { IfOk result (λ r. r.items ≡ string_of n) }
    ensures length { IfOk result (λ r. length r.items ≡ 12) }
{
    let mut digits = Buffer::new();
    let mut record = Vec::from_slice(alloc, &[10, 0, 5, 22])?;
    record.extend_from_slice(&word(0))?;
    record.extend_from_slice(digits.format(n).as_bytes())?;
    record.resize(12, 0)?;
    Ok(record)
}

/// The name with the digits of a number.
pub(crate) fn name_of(alloc: Global, n: u32) -> Result<Vec<u8>, AllocError>
    requires { n < 1000 }
    ensures name { IfOk result (λ name. name.items ≡ name_of n) }
    ensures is_name { IfOk result (λ name. IsName name.items) }
{
    let mut digits = Buffer::new();
    let mut name = Vec::from_slice(alloc, b"n")?;
    name.extend_from_slice(digits.format(n).as_bytes())?;
    Ok(name)
}
