ghost use Rattle.std.specs.Prelude.{◌≡◌};
ghost use Rattle.srv_edge.specs.Finished.{TellsSame};

use crate::sink::Sink;
use crate::source::Source;

/// Both ways of one client. A take changes none of its meanings as a sink, and a give none of its
/// meanings as a source: the laws say that `beside` of each half tells the other.
pub trait Link: Source + Sink {
    /// Ends both streams, so that a client which waits for their end gets it. It is for links that
    /// are used no more, and changes nothing that they tell. A link that has nothing to end does
    /// nothing.
    fn shutdown(&mut self)
        ensures { TellsSame Self.Source Self.Sink self.old self.new }
    {}

    ghost beside_source_taken: { (l : Self) → (Self.Source.beside l).bytes ≡ Self.taken l };

    ghost beside_source_faults: { (l : Self) → (Self.Source.beside l).faults ≡ Self.Sink.faults l };

    ghost beside_sink_given: { (l : Self) → (Self.Sink.beside l).bytes ≡ Self.given l };

    ghost beside_sink_left: { (l : Self) → (Self.Sink.beside l).rest ≡ Self.left l };

    ghost beside_sink_faults: { (l : Self) → (Self.Sink.beside l).faults ≡ Self.Source.faults l };

    ghost same_loans: { (l : Self) → Self.Sink.loans l ≡ Self.Source.loans l };
}
