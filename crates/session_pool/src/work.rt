ghost use Rattle.std.specs.Prelude.{◌≡◌, ◌<◌, ◌+◌, ◌^◌, ℕ, List, []};
ghost use Rattle.srv_edge.specs.Finished.{FinishesFresh};

use srv_edge::{Link, SessionEnd};
use std::sync::Wait;

/// Who serves the links of a door, one after another.
pub trait Work<R: Wait, E: Link> {
    /// How many links it has served.
    ghost served: { Self → ℕ };

    /// Numbers that say which worker it is. No call changes them.
    ghost badge: { Self → List ℕ } = { λ _. [] };

    /// Serves a link to its end.
    fn serve(&mut self, rt: &R, link: &mut E) -> SessionEnd
        requires { served self.old < 2 ^ 63 }
        ensures served { served self.new ≡ served self.old + 1 }
        ensures badge { badge self.new ≡ badge self.old }
        ensures finished { FinishesFresh E.Source E.Sink link.old result link.new };
}
