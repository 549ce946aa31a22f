//! What a new file is made of.

ghost use Rattle.std.specs.Prelude.{◌≡◌, [], true, IfOk};
ghost use Rattle.info_stream.specs.Text.{new_info};
ghost use Rattle.msf_image.specs.Packed.{present};
ghost use Rattle.table_model.specs.Tables.{empty_tables};
ghost use Rattle.tpi_stream.specs.Written.{record_stream_text};
ghost use Rattle.type_store.specs.Commit.{extent_of};
ghost use Rattle.type_store.specs.NewFile.{contents_with, new_contents, new_kept, new_numbers};
ghost use Rattle.type_store.specs.Views.{tables_in};

use crate::base::Base;
use crate::open::Streams;
use crate::prepare::cut_of_tables;
use crate::tables::{KeptNumbers, Tables};
use info_stream::new_info;
use names_table::NamesTable;
use record_table::RecordTable;
use srv_edge::{Limits, RecordList, Text};
use std::alloc::{AllocError, Global};
use std::hash::RandomState;
use tpi_stream::{Kept, record_stream_from};

/// What the streams of a new file hold, and their texts.
pub(crate) fn new_streams(
    alloc: Global,
    keys: RandomState,
    guid: [u8; 16],
    signature: u32,
    limits: Limits,
) -> Result<(Streams, Vec<Text>), AllocError>
    ensures info { IfOk result (λ r. r.0.info.items ≡ new_info guid signature) }
    ensures age { IfOk result (λ r. r.0.age ≡ 1) }
    ensures kept { IfOk result (λ r. r.0.kept ≡ new_numbers) }
    ensures tables { IfOk result (λ r. tables_in r.0.tables ≡ empty_tables limits) }
    ensures base { IfOk result (λ r. r.0.base ≡ extent_of true (tables_in r.0.tables)) }
    ensures texts { IfOk result (λ r. present r.1.items ≡ new_contents guid signature) }
{
    let tables = Tables {
        types: RecordTable::new(alloc, limits)?,
        items: RecordTable::new(alloc, limits)?,
        names: NamesTable::new(alloc, keys, limits, 1)?,
    };
    let info = new_info(guid, signature);
    let texts = new_texts(alloc, &info, tables.names.write_names(alloc)?)?;
    let base = Base::opened(alloc, &cut_of_tables(1, &tables))?;
    let streams = Streams {
        info: info.to_vec(alloc)?,
        age: 1,
        kept: new_numbers(),
        tables,
        base,
    };
    Ok((streams, texts))
}

// The texts, of which that of the PDB stream and that of the names are at hand.
fn new_texts(alloc: Global, info: &[u8], names: Vec<u8>) -> Result<Vec<Text>, AllocError>
    ensures { IfOk result (λ texts. present texts.items ≡ contents_with info.now names.items) }
{
    let mut texts = Vec::with_capacity(alloc, 8)?;
    texts.push(Text::new(Vec::new(alloc)))?;
    texts.push(Text::new(info.to_vec(alloc)?))?;
    texts.push(Text::new(no_records(alloc, 5)?))?;
    texts.push(Text::new(Vec::new(alloc)))?;
    texts.push(Text::new(no_records(alloc, 6)?))?;
    texts.push(Text::new(Vec::new(alloc)))?;
    texts.push(Text::new(Vec::new(alloc)))?;
    texts.push(Text::new(names))?;
    Ok(texts)
}

// The stream of no records whose hash stream is this one.
fn no_records(alloc: Global, hash_stream: u16) -> Result<Vec<u8>, AllocError>
    ensures { IfOk result (λ text. text.items ≡ record_stream_text (new_kept hash_stream) []) }
{
    let records = RecordList::new(alloc);
    let (mut text, rest) = record_stream_from(alloc, new_kept(hash_stream), &records, &[], 0)?;
    text.extend_from_slice(rest)?;
    Ok(text)
}

// The numbers that a new file keeps.
pub(crate) fn new_numbers() -> KeptNumbers
    ensures { result ≡ new_numbers }
{
    KeptNumbers {
        types: new_kept(5),
        items: new_kept(6),
        names_stream: 7,
    }
}

fn new_kept(hash_stream: u16) -> Kept
    ensures { result ≡ new_kept hash_stream }
{
    Kept {
        hash_stream,
        aux_stream: 0xffff,
        buckets: 0x3ffff,
    }
}
