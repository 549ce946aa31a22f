ghost use Rattle.std.specs.Prelude.{◌≡◌, ◌<◌, ◌+◌, ℕ};

use std::sync::ledger::{Ledger, Share};

/// What some workers have done since the pool began, beside the books of the gate. It takes no
/// bytes.
#[derive(Drop)]
pub(crate) struct Marks<T: Ledger, U: Ledger, V: Ledger> {
    /// The links that they took.
    pub taken: Share<T>,
    /// Those of them that they have not given back.
    pub out: Share<U>,
    /// How often they found that the work had ended.
    pub ended: Share<V>,
    pub ghost out_parts: { out.parts ≡ taken.parts },
    pub ghost ended_parts: { ended.parts ≡ taken.parts },
}

/// What some workers have done, which can be told apart and put together.
pub(crate) trait Tally: Drop {
    /// Into how many parts it can be cut.
    ghost parts: { Self → ℕ };

    /// The links that were taken.
    ghost taken: { Self → ℕ };

    /// Those of them that were not given back.
    ghost out: { Self → ℕ };

    /// How often the end of the work was found.
    ghost ended: { Self → ℕ };

    /// Cuts off some parts, in which nothing is done yet.
    fn split_off(&mut self, count: u64) -> Self
        requires some { 0 < count }
        requires parts { count < parts self.old }
        ensures count { parts result ≡ count }
        ensures none_taken { taken result ≡ 0 }
        ensures none_out { out result ≡ 0 }
        ensures none_ended { ended result ≡ 0 }
        ensures parts { parts self.new + count ≡ parts self.old }
        ensures taken { taken self.new ≡ taken self.old }
        ensures out { out self.new ≡ out self.old }
        ensures ended { ended self.new ≡ ended self.old };

    /// Adds what others have done.
    fn merge(&mut self, other: Self)
        ensures parts { parts self.new ≡ parts self.old + parts other }
        ensures taken { taken self.new ≡ taken self.old + taken other }
        ensures out { out self.new ≡ out self.old + out other }
        ensures ended { ended self.new ≡ ended self.old + ended other };
}

impl<T: Ledger, U: Ledger, V: Ledger> Tally for Marks<T, U, V> {
    ghost parts = { λ m. m.taken.parts };

    ghost taken = { λ m. m.taken.amount };

    ghost out = { λ m. m.out.amount };

    ghost ended = { λ m. m.ended.amount };

    fn split_off(&mut self, count: u64) -> Marks<T, U, V> {
        Marks {
            taken: self.taken.split_off(count, 0),
            out: self.out.split_off(count, 0),
            ended: self.ended.split_off(count, 0),
        }
    }

    fn merge(&mut self, other: Marks<T, U, V>) {
        let Marks { taken, out, ended } = other;
        self.taken.merge(taken);
        self.out.merge(out);
        self.ended.merge(ended);
    }
}
