//! The texts of an open file and its tables.

ghost use Rattle.std.specs.Prelude.{◌≡◌, IfOk};
ghost use Rattle.pdb_dump.specs.Dump.{check_text, dump_text, tables_text};
ghost use Rattle.table_model.specs.File.{newest_cut};
ghost use Rattle.type_store.specs.Files.{cut_of};
ghost use Rattle.type_store.specs.Views.{tables_in};
ghost use Rattle.type_store.specs.Written.{AreWithin};

use crate::container::{container_text, put};
use crate::dump::{put_names, put_records, put_streams};
use srv_edge::Device;
use std::alloc::{AllocError, Global};
use type_store::{PdbFile, Tables};

/// The two lines of an open file that holds these tables: one of its container, one of its age and
/// of how many records and names there are.
pub fn check_text<D: Device>(
    alloc: Global,
    file: &PdbFile<D>,
    tables: &Tables,
) -> Result<Vec<u8>, AllocError>
    ensures { IfOk result (λ text. text.items ≡ check_text file.now.image
        (cut_of (newest_cut file.now.file).number (tables_in tables.now))) }
{
    let line = tables_line(alloc, file.age(), tables)?;
    let mut text = container_text(alloc, file.image())?;
    text.extend_from_slice(&line)?;
    Ok(text)
}

// The line of an age and of tables.
fn tables_line(alloc: Global, age: u32, tables: &Tables) -> Result<Vec<u8>, AllocError>
    ensures { IfOk result
        (λ line. line.items ≡ tables_text (cut_of age (tables_in tables.now))) }
{
    let mut line = Vec::new(alloc);
    put(&mut line, b"pdb age=", u64::from(age))?;
    put(&mut line, b" types=", u64::from(tables.types.len()))?;
    put(&mut line, b" items=", u64::from(tables.items.len()))?;
    put(&mut line, b" names=", u64::from(tables.names.len()))?;
    line.extend_from_slice(b"\n")?;
    Ok(line)
}

/// All of an open file that holds these tables: its two lines, and a line for each stream, type,
/// item and name. The text takes somewhat over two bytes of memory for each byte of a record or a
/// name.
pub fn dump_text<D: Device>(
    alloc: Global,
    file: &PdbFile<D>,
    tables: &Tables,
) -> Result<Vec<u8>, AllocError>
    requires within { AreWithin file.now.bounds (tables_in tables.now) }
    ensures { IfOk result (λ text. text.items ≡ dump_text file.now.image
        (cut_of (newest_cut file.now.file).number (tables_in tables.now))) }
{
    let mut text = check_text(alloc, file, tables)?;
    let image = file.image();
    put_streams(&mut text, image.head.block, &image.directory)?;
    put_records(alloc, &mut text, b"type", tables.types.records())?;
    put_records(alloc, &mut text, b"item", tables.items.records())?;
    put_names(alloc, &mut text, &tables.names)?;
    Ok(text)
}
