ghost use Rattle.std.specs.Prelude.{IsErr};
ghost use Rattle.srv_edge.specs.Exchange.{CallsSink};
ghost use Rattle.srv_edge.specs.Stream.{WentAsAnswered};

use crate::failed::Failed;
use crate::sink::Sink;

/// Gives all the bytes, in as many calls as it takes, up to a failure.
pub fn give_all<K: Sink>(sink: &mut K, bytes: &[u8]) -> Result<(), Failed>
    ensures went { WentAsAnswered K.tells result bytes.now (K.taken sink.old) (K.taken sink.new) }
    ensures calls { CallsSink K.Sink (IsErr result) sink.old sink.new }
{
    let mut sent = 0;
    while sent < bytes.len() {
        sent += sink.give(&bytes[sent..])?;
    }
    Ok(())
}
