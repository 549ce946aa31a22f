ghost use Rattle.std.specs.Prelude.{◌≡◌, ◌≤◌, ◌<◌, ◌+◌, ◌-◌, ◌^◌, ◌++◌, length, take, drop, replicate, vec_len, vec_capacity, OnOk, OnErr};
ghost use Rattle.srv_edge.specs.Disk.{splice, splice_with};

use std::alloc::AllocError;

// Writes over what is there, and past the end, with zeros between. Where there is no memory nothing
// is written.
#[tactic(auto, using(crate::proofs::Padded::written))]
pub fn overwrite(file: &mut Vec<u8>, at: usize, bytes: &[u8]) -> Result<(), AllocError>
    requires { at + length bytes.now ≤ 2 ^ 35 }
    ensures ok { OnOk result (file.new.items ≡ splice file.old.items at bytes.now) }
    ensures err { OnErr result (file.new.items ≡ file.old.items) }
    ensures full { OnErr result (vec_capacity file.old < at + length bytes.now) }
    ensures room { vec_capacity file.old ≤ vec_capacity file.new }
{
    lengthen(file, at + bytes.len(), 0)?;
    put_within(file, at, bytes);
    Ok(())
}

// Writes so many bytes, all the same, over what is there and past the end, and the same between.
#[tactic(auto, using(crate::proofs::Padded::filled))]
pub fn fill_range(file: &mut Vec<u8>, at: usize, n: usize, fill: u8) -> Result<(), AllocError>
    requires { at + n ≤ 2 ^ 35 }
    ensures { OnOk result
        (file.new.items ≡ splice_with fill file.old.items at (replicate n fill)) }
{
    lengthen(file, at + n, fill)?;
    fill_within(file, at, n, fill);
    Ok(())
}

// Makes the file so long at least, with the fill.
fn lengthen(file: &mut Vec<u8>, end: usize, fill: u8) -> Result<(), AllocError>
    ensures ok { OnOk result
        (file.new.items ≡ file.old.items ++ replicate (end - length file.old.items) fill) }
    ensures err { OnErr result (file.new.items ≡ file.old.items) }
    ensures full { OnErr result (vec_capacity file.old < end) }
    ensures room { vec_capacity file.old ≤ vec_capacity file.new }
{
    if file.len() < end {
        file.resize(end, fill)?;
    }
    Ok(())
}

// Writes over what is there.
fn put_within(file: &mut Vec<u8>, at: usize, bytes: &[u8])
    requires { at + length bytes.now ≤ vec_len file.old }
    ensures bytes { file.new.items
        ≡ take at file.old.items ++ bytes.now ++ drop (at + length bytes.now) file.old.items }
    ensures room { vec_capacity file.new ≡ vec_capacity file.old }
{
    file[at..at + bytes.len()].copy_from_slice(bytes);
}

// Writes the same byte over what is there.
fn fill_within(file: &mut Vec<u8>, at: usize, n: usize, fill: u8)
    requires { at + n ≤ vec_len file.old }
    ensures { file.new.items
        ≡ take at file.old.items ++ replicate n fill ++ drop (at + n) file.old.items }
{
    file[at..at + n].fill(fill);
}
