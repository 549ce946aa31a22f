ghost use Rattle.std.specs.Prelude.{◌≡◌, ◌≤◌, ◌+◌, ◌++◌, [], decimal, length};
ghost use Rattle.srv_edge.specs.declared.piece.TheConstants.{PIECE_BYTES};
ghost use Rattle.build_server.specs.Server.{summary_of};

use hub::Ended;
use itoa::Buffer;
use srv_edge::{Device, Piece};

// The summary of what a hub left.
pub(crate) fn put_summary<D: Device>(sessions: u32, left: &Ended<D>, text: &mut Piece)
    requires { text.old ≡ [] }
    ensures { text.new ≡ summary_of sessions left.now }
{
    let tables = &left.book.tables;
    put(text, b"served sessions=", sessions);
    put(text, b" calls=", left.journal.len());
    put(text, b" types=", tables.types.len());
    put(text, b" items=", tables.items.len());
    put(text, b" names=", tables.names.len());
    put(text, b" commit=", left.book.acked);
    text.push(b"\n");
}

// Puts a label and a decimal number behind a text.
fn put(text: &mut Piece, label: &[u8], n: u32)
    requires { length text.old + length label.now + 40 ≤ PIECE_BYTES }
    ensures text { text.new ≡ text.old ++ label.now ++ decimal n }
    ensures size { length text.new ≤ length text.old + length label.now + 40 }
{
    let mut digits = Buffer::new();
    text.push(label);
    text.push(digits.format(n).as_bytes());
}
