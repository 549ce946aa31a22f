ghost use Rattle.std.specs.Prelude.{◌≡◌, ◌≤◌, ◌<◌, ◌^◌, ℕ, Bool, false, IsTrue, List, [], length, IfOk, IsErr};
ghost use Rattle.srv_edge.specs.Count.{HasCause};
ghost use Rattle.srv_edge.specs.Stream.{Gives, Told, nothing_told};

use crate::failed::Failed;

/// Where a session writes to.
pub trait Sink {
    /// Whether it tells what was taken.
    ghost tells: { Bool } = { false };

    /// The bytes that were taken, where it tells them.
    ghost taken: { Self → List ℕ } = { λ _. [] };

    /// How often it has failed.
    ghost faults: { Self → ℕ };

    /// The names of the references that it holds. No call puts another in their place.
    ghost loans: { Self → List ℕ } = { λ _. [] };

    /// What it tells beside its being a sink. A give changes none of it.
    ghost beside: { Self → Told } = { λ _. nothing_told };

    /// Takes the front of the bytes, and answers how many. A sink that takes nothing counts a
    /// fault.
    fn give(&mut self, bytes: &[u8]) -> Result<usize, Failed>
        requires { 0 < length bytes.now }
        ensures least { IfOk result (λ n. 0 < n) }
        ensures bound { IfOk result (λ n. n ≤ length bytes.now) }
        ensures bytes { IsTrue tells → Gives (taken self.old) result bytes.now (taken self.new) }
        ensures beside { beside self.new ≡ beside self.old }
        ensures loans { loans self.new ≡ loans self.old }
        ensures below { faults self.new < 2 ^ 64 }
        ensures cause { HasCause (IsErr result) (faults self.old) (faults self.new) };
}
