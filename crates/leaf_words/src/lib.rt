//! Numeric leaves and texts: the parts of a record whose bytes say how long they are.
#![tactic(auto)]

ghost use Rattle.std.specs.Prelude.{◌≡◌, ◌≤◌, ◌<◌, length, IfOk, IfSome};
ghost use Rattle.leaf_words.specs.Words.{end_of_text, numeric_end, tail_size, text_size};

use byteorder::{ByteOrder, LittleEndian};

/// What is wrong with a numeric leaf.
#[derive(Clone, Copy, Debug, PartialEq, Eq)]
pub enum NumericFault {
    /// The bytes end within it.
    Short,
    /// Its first two bytes are no value and announce none.
    Unknown,
}

/// The place behind the numeric leaf that stands at a place.
pub fn numeric(bytes: &[u8], at: usize) -> Result<usize, NumericFault>
    requires { at ≤ length bytes.now }
    ensures value { result ≡ numeric_end bytes.now at }
    ensures further { IfOk result (λ end. at < end) }
    ensures within { IfOk result (λ end. end ≤ length bytes.now) }
{
    let rest = &bytes[at..];
    if rest.len() < 2 {
        return Err(NumericFault::Short);
    }
    match tail_bytes(LittleEndian::read_u16(rest)) {
        None => Err(NumericFault::Unknown),
        Some(size) if rest.len() - 2 < size => Err(NumericFault::Short),
        Some(size) => Ok(at + 2 + size),
    }
}

// How many bytes follow the first two of a numeric leaf.
fn tail_bytes(value: u16) -> Option<usize>
    ensures { result ≡ tail_size value }
{
    match value {
        0..0x8000 => Some(0),
        0x8000 => Some(1),
        0x8001 | 0x8002 => Some(2),
        0x8003 | 0x8004 => Some(4),
        0x8009 | 0x800A => Some(8),
        _ => None,
    }
}

/// The place behind the text that stands at a place: behind its NUL. None where there is no NUL
/// from there on.
pub fn text_end(bytes: &[u8], at: usize) -> Option<usize>
    ensures value { result ≡ end_of_text bytes.now at }
    ensures further { IfSome result (λ end. at < end) }
    ensures within { IfSome result (λ end. end ≤ length bytes.now) }
{
    if at > bytes.len() {
        return None;
    }
    match text_len(&bytes[at..]) {
        None => None,
        Some(len) => Some(at + len + 1),
    }
}

// The bytes before the first NUL.
fn text_len(bytes: &[u8]) -> Option<usize>
    ensures value { result ≡ text_size bytes.now }
    ensures bound { IfSome result (λ len. len < length bytes.now) }
{
    bytes.iter().position(|byte| *byte == 0)
}

#[cfg(test)]
mod tests {
    use super::*;

    // Numeric leaves of the public format, and the texts behind them.
    #[test]
    fn leaves_and_texts(rt: HostRuntime) {
        let leaves: [(&[u8], usize, Result<usize, NumericFault>); 14] = [
            (&[0xFF, 0x7F], 0, Ok(2)),
            (&[0, 0, 0x00, 0x80, 0x2A], 2, Ok(5)),
            (&[0x01, 0x80, 1, 2, 3], 0, Ok(4)),
            (&[0x02, 0x80, 1, 2, 3], 0, Ok(4)),
            (&[0x03, 0x80, 1, 2, 3, 4, 5], 0, Ok(6)),
            (&[0x04, 0x80, 1, 2, 3, 4], 0, Ok(6)),
            (&[0x0A, 0x80, 1, 2, 3, 4, 5, 6, 7, 8], 0, Ok(10)),
            (
                &[0x09, 0x80, 1, 2, 3, 4, 5, 6, 7],
                0,
                Err(NumericFault::Short),
            ),
            (&[0x01, 0x80, 1], 0, Err(NumericFault::Short)),
            (&[0x03, 0x80, 1, 2, 3], 0, Err(NumericFault::Short)),
            (&[0x05, 0x80, 1, 2, 3, 4], 0, Err(NumericFault::Unknown)),
            (
                &[0x08, 0x80, 1, 2, 3, 4, 5, 6, 7, 8],
                0,
                Err(NumericFault::Unknown),
            ),
            (&[0x01], 0, Err(NumericFault::Short)),
            (&[0x01], 1, Err(NumericFault::Short)),
        ];
        for (bytes, at, want) in leaves {
            assert_eq!(rt; numeric(bytes, at), want, "{bytes:?} at {at}");
        }
        for (at, want) in [(0, Some(3)), (3, Some(4)), (4, None), (6, None)] {
            assert_eq!(rt; text_end(&[b'a', b'b', 0, 0, b'c'], at), want, "at {at}");
        }
    }
}
