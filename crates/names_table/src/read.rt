ghost use Rattle.std.specs.Prelude.{◌≡◌, ◌≤◌, ◌+◌, ◌-◌, ◌⊎◌, ◌++◌, [], Err, None, Ok, Some, drop, get_or, length, IfErr, IfOk, OnOk};
ghost use Rattle.std.specs.Option.{option_map};
ghost use Rattle.srv_edge.specs.declared.limit.TheConstants.{MOST_NAME_BYTES};
ghost use Rattle.names_table.specs.Names.{IsNamesTable, Names};
ghost use Rattle.names_table.specs.Reading.{AreBeforeNul, first_long, header_fault, reading, size_in, text_fault, version_in};
ghost use Rattle.names_table.specs.Strings.{names_cut};
ghost use Rattle.names_table.specs.declared.fault.NamesFault.TheVariants as fault;

use crate::fault::NamesFault;
use crate::table::NamesTable;
use byteorder::{ByteOrder, LittleEndian};
use srv_edge::Limits;
use srv_edge::limit::NAME_BYTES;
use std::alloc::Global;
use std::hash::RandomState;

/// The first four bytes of the stream.
pub(crate) const SIGNATURE: u32 = 0xEFFE_EFFE;

/// The signature, the version of the hashes, and how many bytes the strings have.
pub const HEADER_BYTES: u32 = 12;

/// The table that the stream `/names` holds, or the first test that it fails. What follows the
/// strings is not judged.
pub fn read_names(
    alloc: Global,
    keys: RandomState,
    stream: &[u8],
    limits: Limits,
) -> Result<NamesTable, NamesFault>
    ensures exact { (result ≡ reading limits.name_bytes stream.now)
        ⊎ (result ≡ Err fault.OutOfMemory) }
    ensures kept { IfOk result IsNamesTable }
    ensures limit { IfOk result (λ names. names.max_bytes ≡ limits.name_bytes) }
{
    let (version, size) = read_header(stream, limits.name_bytes)?;
    let mut table = NamesTable::new(alloc, keys, limits, version)?;
    let start = HEADER_BYTES as usize;
    append_strings(&mut table, &stream[start..start + size as usize])?;
    Ok(table)
}

// The version and the size of the strings.
fn read_header(stream: &[u8], max_bytes: u32) -> Result<(u32, u32), NamesFault>
    ensures ok { IfOk result (λ r. (header_fault max_bytes stream.now ≡ None)
        × (r.0 ≡ version_in stream.now) × (r.1 ≡ size_in stream.now)
        × ((r.0 ≡ 1) ⊎ (r.0 ≡ 2)) × (r.1 ≤ max_bytes) × (HEADER_BYTES + r.1 ≤ length stream.now)) }
    ensures err { IfErr result (λ e. header_fault max_bytes stream.now ≡ Some e) }
{
    if stream.len() < HEADER_BYTES as usize || LittleEndian::read_u32(stream) != SIGNATURE {
        return Err(NamesFault::Header { at: 0 });
    }
    let version = LittleEndian::read_u32(&stream[4..]);
    if version != 1 && version != 2 {
        return Err(NamesFault::Header { at: 4 });
    }
    let size = LittleEndian::read_u32(&stream[8..]);
    if size > max_bytes || stream.len() - (HEADER_BYTES as usize) < size as usize {
        return Err(NamesFault::Size { at: 8 });
    }
    Ok((version, size))
}

// Appends the names of the strings, which begin with the NUL of the empty name.
fn append_strings(table: &mut NamesTable, strings: &[u8]) -> Result<(), NamesFault>
    requires names { table.old.names ≡ [] }
    requires room { length strings.now ≤ table.old.max_bytes }
    requires limit { table.old.max_bytes ≤ MOST_NAME_BYTES }
    ensures ok { OnOk result ((text_fault strings.now ≡ None)
        × (table.new ≡ record table.old { names = names_cut (drop 1 strings.now) })) }
    ensures err { IfErr result
        (λ e. (text_fault strings.now ≡ Some e) ⊎ (e ≡ fault.OutOfMemory)) }
{
    if strings.is_empty() {
        return Ok(());
    }
    if strings[0] != 0 {
        return Err(NamesFault::Text { at: HEADER_BYTES });
    }
    let last = strings.len() - 1;
    if strings[last] != 0 {
        return Err(NamesFault::Text {
            at: HEADER_BYTES + last as u32,
        });
    }
    append_names(table, &strings[1..])
}

// Appends names that stand one behind the other, each with its NUL.
fn append_names(table: &mut NamesTable, strings: &[u8]) -> Result<(), NamesFault>
    requires names { table.old.names ≡ [] }
    requires room { length strings.now + 1 ≤ table.old.max_bytes }
    requires limit { table.old.max_bytes ≤ MOST_NAME_BYTES }
    requires nul { get_or strings.now (length strings.now - 1) 0 ≡ 0 }
    ensures ok { OnOk result ((first_long (HEADER_BYTES + 1) (names_cut strings.now) ≡ None)
        × (table.new ≡ record table.old { names = names_cut strings.now })) }
    ensures err { IfErr result (λ e. (option_map fault.Text
        (first_long (HEADER_BYTES + 1) (names_cut strings.now)) ≡ Some e) ⊎ (e ≡ fault.OutOfMemory)) }
{
    let mut at = 0;
    while at < strings.len() {
        let rest = &strings[at..];
        let end = before_nul(rest);
        if end > NAME_BYTES as usize {
            return Err(NamesFault::Text {
                at: HEADER_BYTES + 1 + at as u32,
            });
        }
        table.append(&rest[..end])?;
        at += end + 1;
    }
    Ok(())
}

// How many bytes stand before the first NUL.
fn before_nul(bytes: &[u8]) -> usize
    ensures { AreBeforeNul bytes.now result }
{
    let mut n = 0;
    while n < bytes.len() {
        if bytes[n] == 0 {
            return n;
        }
        n += 1;
    }
    n
}
