//! The edits of one stream.

ghost use Rattle.std.specs.Prelude.{◌≡◌};
ghost use Rattle.std.specs.List.{list_any};
ghost use Rattle.std.specs.Option.{option_copied};
ghost use Rattle.cow_streams.specs.Edits.{edit_at, has_byte, len_after};

use msf_blocks::Edit;

/// The edit that has byte `at` of a stream, if one has it.
pub fn edit_at<'a, 'b>(edits: &'a [Edit<'b>], stream: u32, at: u64) -> Option<&'a Edit<'b>>
    ensures { option_copied result ≡ edit_at edits.now stream at }
{
    edits.iter().find(|e| has_byte(e, stream, at))
}

/// Whether one of the edits has byte `at` of a stream.
pub fn is_edited(edits: &[Edit], stream: u32, at: u64) -> bool
    ensures { result ≡ list_any (has_byte stream at) edits.now }
{
    edits.iter().any(|e| has_byte(e, stream, at))
}

// Whether an edit has byte `at` of a stream.
fn has_byte(e: &Edit, stream: u32, at: u64) -> bool
    ensures { result ≡ has_byte stream at e.now }
{
    e.stream() == stream && u64::from(e.at()) <= at && at - u64::from(e.at()) < e.bytes_len() as u64
}

/// The length after the edits of a stream that had this one.
pub fn len_after(edits: &[Edit], stream: u32, len: u32) -> u32
    ensures { result ≡ len_after edits.now stream len }
{
    for e in edits {
        if e.stream() == stream {
            return e.len();
        }
    }
    len
}
