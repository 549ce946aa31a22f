ghost use Rattle.std.specs.Prelude.{◌≡◌};
ghost use Rattle.drawn_session.specs.Draws.{drawn_with, next_number};

/// Where the draws from a seed have come to.
#[derive(Clone, Copy, Debug, PartialEq, Eq)]
pub(crate) struct Draws {
    pub(crate) number: u64,
}

impl Draws {
    /// The next draw.
    #[tactic(auto, unfolding(crate::specs::Draws::next_number))]
    pub(crate) fn next(&mut self) -> u32
        ensures number { self.new.number ≡ next_number self.old.number }
        ensures draw { result ≡ drawn_with (next_number self.old.number) }
    {
        self.number = self
            .number
            .wrapping_mul(6_364_136_223_846_793_005)
            .wrapping_add(1_442_695_040_888_963_407);
        (self.number >> 33) as u32
    }
}
