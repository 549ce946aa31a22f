ghost use Rattle.std.specs.Prelude.{◌≡◌, ◌++◌, [], ◌∷◌, refl};

use crate::failed::Failed;
use crate::link::Link;
use crate::sink::Sink;
use crate::source::Source;

/// A source and a sink that lie apart, as one link.
#[derive(Drop)]
pub struct Both<'a, S: Source, K: Sink> {
    pub source: &'a mut S,
    pub sink: &'a mut K,
}

impl<'a, S: Source, K: Sink> Source for Both<'a, S, K> {
    ghost tells = { S.tells };

    ghost given = { λ b. S.given b.source.now };

    ghost left = { λ b. S.left b.source.now };

    ghost faults = { λ b. S.faults b.source.now };

    ghost loans = { λ b. b.source.ghost_name ∷ b.sink.ghost_name
        ∷ (S.loans b.source.now ++ K.loans b.sink.now) };

    ghost beside = { λ b. record
        { bytes = K.taken b.sink.now; rest = []; faults = K.faults b.sink.now } };

    fn take(&mut self, into: &mut [u8]) -> Result<usize, Failed> {
        Source::take(&mut *self.source, into)
    }
}

impl<'a, S: Source, K: Sink> Sink for Both<'a, S, K> {
    ghost tells = { K.tells };

    ghost taken = { λ b. K.taken b.sink.now };

    ghost faults = { λ b. K.faults b.sink.now };

    ghost loans = { λ b. b.source.ghost_name ∷ b.sink.ghost_name
        ∷ (S.loans b.source.now ++ K.loans b.sink.now) };

    ghost beside = { λ b. record {
      bytes = S.given b.source.now;
      rest = S.left b.source.now;
      faults = S.faults b.source.now;
    } };

    fn give(&mut self, bytes: &[u8]) -> Result<usize, Failed> {
        Sink::give(&mut *self.sink, bytes)
    }
}

impl<'a, S: Source, K: Sink> Link for Both<'a, S, K> {
    ghost beside_source_taken = { λ _. refl };

    ghost beside_source_faults = { λ _. refl };

    ghost beside_sink_given = { λ _. refl };

    ghost beside_sink_left = { λ _. refl };

    ghost beside_sink_faults = { λ _. refl };

    ghost same_loans = { λ _. refl };
}
