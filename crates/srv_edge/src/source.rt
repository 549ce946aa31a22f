ghost use Rattle.std.specs.Prelude.{◌≡◌, ◌≤◌, ◌<◌, ◌^◌, ℕ, Bool, false, IsTrue, List, [], length, IfOk, IsErr};
ghost use Rattle.srv_edge.specs.Count.{HasCause};
ghost use Rattle.srv_edge.specs.Stream.{Takes, Told, nothing_told};

use crate::failed::Failed;

/// Where a session reads from.
pub trait Source {
    /// Whether it tells what it has given and what is left.
    ghost tells: { Bool } = { false };

    /// The bytes that it has given, where it tells them.
    ghost given: { Self → List ℕ } = { λ _. [] };

    /// The bytes that are left, where it tells them.
    ghost left: { Self → List ℕ } = { λ _. [] };

    /// How often it has failed.
    ghost faults: { Self → ℕ };

    /// The names of the references that it holds. No call puts another in their place.
    ghost loans: { Self → List ℕ } = { λ _. [] };

    /// What it tells beside its being a source. A take changes none of it.
    ghost beside: { Self → Told } = { λ _. nothing_told };

    /// Fills the front of the slice, and answers how many bytes. 0 is the end of the input.
    fn take(&mut self, into: &mut [u8]) -> Result<usize, Failed>
        requires { 0 < length into.old }
        ensures bound { IfOk result (λ n. n ≤ length into.old) }
        ensures bytes { IsTrue tells
            → Takes (given self.old) (left self.old) result into.new (given self.new)
            (left self.new) }
        ensures beside { beside self.new ≡ beside self.old }
        ensures loans { loans self.new ≡ loans self.old }
        ensures below { faults self.new < 2 ^ 64 }
        ensures cause { HasCause (IsErr result) (faults self.old) (faults self.new) };
}
