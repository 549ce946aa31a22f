ghost use Rattle.std.specs.Prelude.{◌≡◌, ◌<◌, ◌^◌, length};
ghost use Rattle.std.specs.Option.{option_copied};
ghost use Rattle.record_table.specs.Table.{place_of};
ghost use Rattle.names_table.specs.Names.{bytes_of, name_from, offset_from};

use srv_edge::{RecordList, Text};

/// The place of the first record that equals this one, byte for byte.
pub fn place_of(records: &RecordList, bytes: &[u8]) -> Option<u32>
    ensures { result ≡ place_of records.now bytes.now }
{
    for place in 0..records.len() {
        if let Some(record) = records.get(place)
            && record == bytes
        {
            return Some(place);
        }
    }
    None
}

/// The place of the first name that equals this one, byte for byte.
pub fn place_of_name(names: &[Text], name: &[u8]) -> Option<usize>
    ensures { result ≡ place_of names.now name.now }
{
    for (place, known) in names.iter().enumerate() {
        if known.bytes() == name {
            return Some(place);
        }
    }
    None
}

/// Where the first name begins that equals this one.
pub(crate) fn offset_of(names: &[Text], name: &[u8]) -> Option<u32>
    requires { bytes_of names.now < 2 ^ 32 }
    ensures { result ≡ offset_from 1 names.now name.now }
{
    let mut offset = 1;
    for known in names {
        if known.bytes() == name {
            return Some(offset);
        }
        offset += known.bytes().len() as u32 + 1;
    }
    None
}

/// The name that begins at an offset.
pub(crate) fn name_at(names: &[Text], offset: u32) -> Option<&[u8]>
    requires { bytes_of names.now < 2 ^ 32 }
    ensures { option_copied result ≡ name_from 1 names.now offset }
{
    let mut start = 1;
    for name in names {
        if start == offset {
            return Some(name.bytes());
        }
        start += name.bytes().len() as u32 + 1;
    }
    None
}

/// How many bytes names take, with a NUL behind each and one before all.
pub(crate) fn bytes_of(names: &[Text]) -> u32
    requires { bytes_of names.now < 2 ^ 32 }
    ensures { result ≡ bytes_of names.now }
{
    let mut bytes = 1;
    for name in names {
        bytes += name.bytes().len() as u32 + 1;
    }
    bytes
}
