ghost use Rattle.std.specs.Prelude.{◌≡◌, ◌≤◌, ◌++◌, length, take, drop};
ghost use Rattle.byteorder.specs.Endian.{little_bytes};
ghost use Rattle.info_stream.specs.Text.{new_info, with_age};

use byteorder::{ByteOrder, LittleEndian};

// The stream of a new file, but for its signature and its GUID.
const NEW_INFO: [u8; 75] =
    *b"\x94\x2e\x31\x01\0\0\0\0\x01\0\0\0\0\0\0\0\0\0\0\0\0\0\0\0\0\0\0\0\x07\0\0\0/names\0\x01\0\0\0\x01\0\0\0\x01\0\0\0\x01\0\0\0\0\0\0\0\0\0\0\0\x07\0\0\0\0\0\0\0\xdc\x51\x33\x01";

/// Gives the stream another age, and changes nothing else.
pub fn with_age(info: &mut [u8], age: u32)
    requires { 28 ≤ length info.old }
    ensures { info.new ≡ with_age info.old age }
{
    LittleEndian::write_u32(&mut info[8..12], age);
}

/// The stream of a new file: age 1, and the name `/names` for stream 7.
#[tactic(auto, unfolding(crate::specs::Text::new_info))]
pub fn new_info(guid: [u8; 16], signature: u32) -> [u8; 75]
    ensures { result ≡ new_info guid signature }
{
    let mut info = NEW_INFO;
    put_guid(&mut info, &guid);
    put_signature(&mut info, signature);
    info
}

// The signature stands behind the version.
fn put_signature(info: &mut [u8], signature: u32)
    requires { 28 ≤ length info.old }
    ensures { info.new ≡ take 4 info.old ++ (little_bytes 4 signature ++ drop 8 info.old) }
{
    LittleEndian::write_u32(&mut info[4..8], signature);
}

// The GUID stands behind the age.
fn put_guid(info: &mut [u8], guid: &[u8])
    requires long { 28 ≤ length info.old }
    requires guid { length guid.now ≡ 16 }
    ensures { info.new ≡ take 12 info.old ++ (guid.now ++ drop 28 info.old) }
{
    info[12..28].copy_from_slice(guid);
}
