ghost use Rattle.std.specs.Prelude.{◌≡◌, ◌≤◌, length, take, drop};
ghost use Rattle.std.specs.Option.{option_copied};
ghost use Rattle.leaf_grammar.specs.Tags.{tag_in};
ghost use Rattle.type_hash.specs.Hash.{string_v1_of};
ghost use Rattle.type_hash.specs.Record.{chosen_name, is_line as is_line_kind, is_made_up, record_hash, untagged_hash};

use crate::crc::buffer;
use crate::strings::string_v1;
use leaf_grammar::{Space, Tag, check, record_kind, tag_of};

/// The hash of a record, which modulo the number of buckets is the bucket that it falls in. Which
/// of its bytes are hashed is this project's own choice: a tag's name or its unique name, a line's
/// type, or all bytes.
#[tactic(auto, unfolding(crate::specs::Record::record_hash))]
pub fn of_record(bytes: &[u8]) -> u32
    ensures { result ≡ record_hash bytes.now }
{
    match tag_of(bytes) {
        None => of_untagged(bytes),
        Some(tag) => match name_of(tag) {
            Some(name) => string_v1(name),
            None => buffer(bytes),
        },
    }
}

// The name that stands for a tag.
#[tactic(auto, unfolding(crate::specs::Record::chosen_name))]
fn name_of(tag: Tag<'_>) -> Option<&[u8]>
    ensures { option_copied result ≡ chosen_name (tag_in tag.entry) }
{
    if tag.is_forward || tag.unique_name.is_some() && is_unnamed(tag.name) {
        None
    } else if tag.is_scoped {
        tag.unique_name
    } else {
        Some(tag.name)
    }
}

// A line by its type, all else by all its bytes.
fn of_untagged(bytes: &[u8]) -> u32
    ensures { result ≡ untagged_hash bytes.now }
{
    if bytes.len() >= 8 && is_line(record_kind(bytes)) && check(Space::Items, bytes).is_ok() {
        of_line(bytes)
    } else {
        buffer(bytes)
    }
}

// By the index of the type that is declared there.
fn of_line(bytes: &[u8]) -> u32
    requires { 8 ≤ length bytes.now }
    ensures { result ≡ string_v1_of (take 4 (drop 4 bytes.now)) }
{
    string_v1(&bytes[4..8])
}

// Where a type is declared, in a source or a module.
fn is_line(kind: u16) -> bool
    ensures { result ≡ is_line_kind kind }
{
    matches!(kind, 0x1606 | 0x1607)
}

// A name that compilers give to what has none.
fn is_unnamed(name: &[u8]) -> bool
    ensures { result ≡ is_made_up name.now }
{
    name == b"<unnamed-tag>".as_slice()
        || name == b"__unnamed".as_slice()
        || name.ends_with(b"::<unnamed-tag>")
        || name.ends_with(b"::__unnamed")
}
