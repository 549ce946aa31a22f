//! The fields of the stream from left to right.

ghost use Rattle.std.specs.Prelude.{◌≡◌, ◌≤◌, ◌<◌, ◌+◌, ◌*◌, ◌^◌, length, IfOk};
ghost use Rattle.msf_blocks.specs.Judging.{Tells};
ghost use Rattle.info_stream.specs.Reading.{counted, field, number, numbers};
ghost use Rattle.info_stream.specs.Words.{words_in};

use crate::fault::InfoFault;
use byteorder::{ByteOrder, LittleEndian};

/// A field of so many bytes, and the bytes behind it.
pub(crate) fn field(whole: u64, n: u64, bytes: &[u8]) -> Result<(&[u8], &[u8]), InfoFault>
    requires { length bytes.now ≤ whole }
    ensures exact { Tells Some (λ x. (x.0.now, x.1.now)) result (field whole n bytes.now) }
    ensures rest { IfOk result (λ x. length x.1.now ≤ whole) }
{
    if n > bytes.len() as u64 {
        return Err(InfoFault::Short {
            at: whole - bytes.len() as u64,
        });
    }
    Ok(bytes.split_at(n as usize))
}

/// A number of four bytes.
#[tactic(auto, unfolding(crate::specs::Reading::number))]
pub(crate) fn number(whole: u64, bytes: &[u8]) -> Result<(u32, &[u8]), InfoFault>
    requires { length bytes.now ≤ whole }
    ensures exact { Tells Some (λ x. (x.0, x.1.now)) result (number whole bytes.now) }
    ensures rest { IfOk result (λ x. length x.1.now ≤ whole) }
{
    let (four, rest) = field(whole, 4, bytes)?;
    Ok((LittleEndian::read_u32(four), rest))
}

/// So many numbers, each a field of its own.
pub(crate) fn numbers(whole: u64, n: u64, bytes: &[u8]) -> Result<(&[u8], &[u8]), InfoFault>
    requires whole { length bytes.now ≤ whole }
    requires few { 4 * n < 2 ^ 64 }
    ensures exact { Tells Some (λ x. (words_in x.0.now, x.1.now)) result
        (numbers whole n bytes.now) }
    ensures count { IfOk result (λ x. length x.0.now ≡ 4 * n) }
    ensures rest { IfOk result (λ x. length x.1.now ≤ whole) }
{
    let len = bytes.len() as u64;
    if 4 * n > len {
        return Err(InfoFault::Short {
            at: whole - len % 4,
        });
    }
    Ok(bytes.split_at(4 * n as usize))
}

/// A number that says how many follow, and these.
#[tactic(auto, unfolding(crate::specs::Reading::counted))]
pub(crate) fn counted(whole: u64, bytes: &[u8]) -> Result<(&[u8], &[u8]), InfoFault>
    requires { length bytes.now ≤ whole }
    ensures exact { Tells Some (λ x. (words_in x.0.now, x.1.now)) result (counted whole bytes.now) }
    ensures few { IfOk result (λ x. length x.0.now < 2 ^ 34) }
    ensures rest { IfOk result (λ x. length x.1.now ≤ whole) }
{
    let (count, rest) = number(whole, bytes)?;
    numbers(whole, u64::from(count), rest)
}
