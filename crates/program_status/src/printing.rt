ghost use Rattle.std.specs.Prelude.{◌≢◌};
ghost use Rattle.srv_edge.specs.Count.{HasCause};
ghost use Rattle.program_status.specs.Prints.{Prints};

use crate::status::Status;
use srv_edge::{Sink, give_all};

/// Prints a text, after which the status is this.
pub fn print<K: Sink>(sink: &mut K, text: &[u8], status: Status) -> Status
    ensures printed { Prints K.Sink text.now status sink.old sink.new result }
    ensures writes { HasCause (result ≢ status) (K.faults sink.old) (K.faults sink.new) }
{
    match give_all(sink, text) {
        Ok(()) => status,
        Err(_) => Status::WriteFault,
    }
}
