ghost use Rattle.std.specs.Prelude.{◌≡◌, ◌++◌, OnOk, decimal, length, slice_index_or, codes, All, ◌≤◌, ◌<◌, ◌^◌, None};
ghost use Rattle.byteorder.specs.Endian.{big_bytes};
ghost use Rattle.hex.specs.Hex.{encode_lower};
ghost use Rattle.msf_blocks.specs.Blocks.{IsBlockSize};
ghost use Rattle.names_table.specs.Names.{bytes_of};
ghost use Rattle.record_table.specs.Table.{IsRecord};
ghost use Rattle.pdb_dump.specs.Dump.{kind_text, lines, name_line, name_lines, number_text, record_line, record_lines, stream_line};

use crate::container::put;
use byteorder::{BigEndian, ByteOrder, LittleEndian};
use msf_blocks::blocks_of_size;
use names_table::NamesTable;
use record_table::FIRST_INDEX;
use srv_edge::RecordList;
use std::alloc::{AllocError, Global};
use stream_directory::{Directory, Stream};

/// Puts a line for each stream behind a text.
pub(crate) fn put_streams(
    text: &mut Vec<u8>,
    block_size: u32,
    directory: &Directory,
) -> Result<(), AllocError>
    requires { IsBlockSize block_size }
    ensures { OnOk result (text.new.items ≡ text.old.items ++ lines
        (λ i. stream_line block_size i (slice_index_or directory.now i None))
        (length directory.now)) }
{
    let streams = directory.streams();
    for i in 0..directory.len() {
        put_stream(text, block_size, i, &streams[i as usize])?;
    }
    Ok(())
}

// Puts the line of a stream.
fn put_stream(
    text: &mut Vec<u8>,
    block_size: u32,
    number: u32,
    stream: &Option<Stream>,
) -> Result<(), AllocError>
    requires { IsBlockSize block_size }
    ensures { OnOk result
        (text.new.items ≡ text.old.items ++ stream_line block_size number stream.now) }
{
    put(text, b"stream ", u64::from(number))?;
    match stream {
        None => text.extend_from_slice(b" absent\n"),
        Some(stream) => {
            put(text, b" size=", u64::from(stream.size()))?;
            let blocks = blocks_of_size(block_size, stream.size());
            put(text, b" blocks=", u64::from(blocks))?;
            text.extend_from_slice(b"\n")
        }
    }
}

/// Puts a line for each record behind a text. Each begins with a word.
pub(crate) fn put_records(
    alloc: Global,
    text: &mut Vec<u8>,
    word: &[u8],
    records: &RecordList,
) -> Result<(), AllocError>
    requires few { length records.now ≤ 2 ^ 23 }
    requires all { All IsRecord records.now }
    ensures { OnOk result
        (text.new.items ≡ text.old.items ++ record_lines word.now records.now) }
{
    for position in 0..records.len() {
        let Some(record) = records.get(position) else {
            unreachable!()
        };
        put_record(alloc, text, word, FIRST_INDEX + position, record)?;
    }
    Ok(())
}

// Puts the line of a record.
fn put_record(
    alloc: Global,
    text: &mut Vec<u8>,
    word: &[u8],
    index: u32,
    bytes: &[u8],
) -> Result<(), AllocError>
    requires { 4 ≤ length bytes.now }
    ensures { OnOk result
        (text.new.items ≡ text.old.items ++ record_line word.now index bytes.now) }
{
    text.extend_from_slice(word)?;
    put_number(alloc, text, index)?;
    put_kind(alloc, text, bytes)?;
    text.extend_from_slice(b" ")?;
    put_hex(alloc, text, bytes)?;
    text.extend_from_slice(b"\n")
}

// Puts a space and a number in hexadecimal.
fn put_number(alloc: Global, text: &mut Vec<u8>, number: u32) -> Result<(), AllocError>
    ensures { OnOk result
        (text.new.items ≡ text.old.items ++ codes " " ++ number_text number) }
{
    let mut bytes = [0; 4];
    BigEndian::write_u32(&mut bytes, number);
    text.extend_from_slice(b" ")?;
    put_hex(alloc, text, &bytes)
}

// Puts a space and the kind of a record in hexadecimal.
fn put_kind(alloc: Global, text: &mut Vec<u8>, bytes: &[u8]) -> Result<(), AllocError>
    requires { 4 ≤ length bytes.now }
    ensures { OnOk result
        (text.new.items ≡ text.old.items ++ codes " " ++ kind_text bytes.now) }
{
    let mut kind = [0; 2];
    BigEndian::write_u16(&mut kind, LittleEndian::read_u16(&bytes[2..]));
    text.extend_from_slice(b" ")?;
    put_hex(alloc, text, &kind)
}

/// Puts a line for each name behind a text.
pub(crate) fn put_names(
    alloc: Global,
    text: &mut Vec<u8>,
    names: &NamesTable,
) -> Result<(), AllocError>
    requires short { bytes_of names.now.names < 2 ^ 32 }
    ensures { OnOk result (text.new.items ≡ text.old.items ++ name_lines names.now.names) }
{
    let mut offset = 1;
    for position in 0..names.len() {
        let Some(name) = names.name(position) else {
            unreachable!()
        };
        put_name(alloc, text, offset, name)?;
        offset += name.len() as u32 + 1;
    }
    Ok(())
}

// Puts the line of a name.
fn put_name(alloc: Global, text: &mut Vec<u8>, offset: u32, name: &[u8]) -> Result<(), AllocError>
    ensures { OnOk result (text.new.items ≡ text.old.items ++ name_line offset name.now) }
{
    text.extend_from_slice(b"name")?;
    put_number(alloc, text, offset)?;
    text.extend_from_slice(b" ")?;
    put_hex(alloc, text, name)?;
    text.extend_from_slice(b"\n")
}

// Puts bytes in hexadecimal, in lower case.
fn put_hex(alloc: Global, text: &mut Vec<u8>, bytes: &[u8]) -> Result<(), AllocError>
    ensures { OnOk result (text.new.items ≡ text.old.items ++ encode_lower bytes.now) }
{
    let digits = hex::encode(alloc, bytes)?;
    text.extend_from_slice(digits.as_bytes())
}
