ghost use Rattle.std.specs.Prelude.{◌≡◌, ◌≤◌, ◌+◌, ◌^◌, ℕ, Bool, false, IsTrue, List, [], length, take, drop, IfOk, OnOk, IsErr};
ghost use Rattle.srv_edge.specs.Count.{HasCause};
ghost use Rattle.srv_edge.specs.Disk.{splice, with_head, Torn, Whole, Follows, Among, Only, Elapses};

use crate::failed::Failed;

/// A file as a disk keeps it. A crash may come at any moment, within a call or between two, and
/// leaves one of the images of that moment.
///
/// The clauses bound the images from above: a device with fewer is a better disk, and what holds of
/// each image holds of it too. Of a device that tells nothing the clauses on content say nothing,
/// and it has no images; its calls still count their faults.
///
/// What a read gives is one of the images (`seen_is_one`), and only a device that tells its content
/// has any (`told`).
///
/// The head of a file is its superblock, the first 56 bytes.
pub trait Device {
    /// Whether it tells its content. One that does not has no images.
    ghost tells: { Bool } = { false };

    /// What a read gives, where it tells it.
    ghost seen: { Self → List ℕ } = { λ _. [] };

    /// The images: what a crash at this moment may leave.
    ghost may_leave: { Self → List ℕ → Type 0 } = { λ _ _. ⊥ };

    /// The moment, as a number that does not fall.
    ghost moment: { Self → ℕ } = { λ _. 0 };

    /// What a crash at some moment from that one on might have left, during a call or between two.
    ghost left_since: { Self → ℕ → List ℕ → Type 0 } = { λ _ _ _. ⊥ };

    /// How often it has failed.
    ghost fault_count: { Self → ℕ };

    /// The names of the references that it holds. No call puts another in their place.
    ghost loans: { Self → List ℕ } = { λ _. [] };

    /// How many bytes a read gives. It changes neither what a read gives (`seen`) nor the images
    /// (`crash`).
    fn size(&mut self) -> Result<u64, Failed>
        ensures size { IsTrue tells → IfOk result (λ n. n ≡ length (seen self.old)) }
        ensures seen { seen self.new ≡ seen self.old }
        ensures crash { Among (may_leave self.old) (may_leave self.new) }
        ensures time { Elapses (moment self.old) (moment self.new)
            (left_since self.old) (left_since self.new) (may_leave self.new) }
        ensures loans { loans self.new ≡ loans self.old }
        ensures cause { HasCause (IsErr result) (fault_count self.old) (fault_count self.new) };

    /// Fills the slice with the bytes from a place on. It changes neither what a read gives
    /// (`seen`) nor the images (`crash`). A device that does not tell its content counts a read
    /// past the end as a fault.
    fn read(&mut self, at: u64, out: &mut [u8]) -> Result<(), Failed>
        requires within { IsTrue tells → at + length out.old ≤ length (seen self.old) }
        ensures bytes { IsTrue tells
            → OnOk result (out.new ≡ take (length out.old) (drop at (seen self.old))) }
        ensures seen { seen self.new ≡ seen self.old }
        ensures crash { Among (may_leave self.old) (may_leave self.new) }
        ensures time { Elapses (moment self.old) (moment self.new)
            (left_since self.old) (left_since self.new) (may_leave self.new) }
        ensures loans { loans self.new ≡ loans self.old }
        ensures cause { HasCause (IsErr result) (fault_count self.old) (fault_count self.new) };

    /// Writes over what is there, and past the end. Whether it answers Ok or Failed, each image is
    /// then one from before in which the range holds any bytes and all bytes outside it stay, and
    /// is no shorter; at and past the old end it holds any bytes (`crash`). After Ok a read gives
    /// the bytes in their range, what it gave before elsewhere, and zeros between the old end and
    /// the range (`written`). It never meets the head (`behind_head`).
    fn write(&mut self, at: u64, bytes: &[u8]) -> Result<(), Failed>
        requires behind_head { 512 ≤ at }
        requires end { at + length bytes.now ≤ 2 ^ 35 }
        ensures written { IsTrue tells
            → OnOk result (seen self.new ≡ splice (seen self.old) at bytes.now) }
        ensures crash { Follows (Torn at (length bytes.now)) (may_leave self.old)
            (may_leave self.new) }
        ensures time { Elapses (moment self.old) (moment self.new)
            (left_since self.old) (left_since self.new) (may_leave self.new) }
        ensures loans { loans self.new ≡ loans self.old }
        ensures cause { HasCause (IsErr result) (fault_count self.old) (fault_count self.new) };

    /// Writes the head. Whether it answers Ok or Failed, a crash leaves the head whole or not at
    /// all (`crash`). After Ok a read gives the head, and behind it what it gave before
    /// (`written`).
    fn write_super(&mut self, bytes: &[u8; 56]) -> Result<(), Failed>
        ensures written { IsTrue tells
            → OnOk result (seen self.new ≡ with_head (seen self.old) bytes.now) }
        ensures crash { Follows (Whole bytes.now) (may_leave self.old) (may_leave self.new) }
        ensures time { Elapses (moment self.old) (moment self.new)
            (left_since self.old) (left_since self.new) (may_leave self.new) }
        ensures loans { loans self.new ≡ loans self.old }
        ensures cause { HasCause (IsErr result) (fault_count self.old) (fault_count self.new) };

    /// After Ok the only image is what a read gives (`durable`). One that fails settles nothing and
    /// adds no image (`crash`). It never changes what a read gives (`seen`).
    fn sync(&mut self) -> Result<(), Failed>
        ensures durable { OnOk result (Only (seen self.old) (may_leave self.new)) }
        ensures seen { seen self.new ≡ seen self.old }
        ensures crash { Among (may_leave self.old) (may_leave self.new) }
        ensures time { Elapses (moment self.old) (moment self.new)
            (left_since self.old) (left_since self.new) (may_leave self.new) }
        ensures loans { loans self.new ≡ loans self.old }
        ensures cause { HasCause (IsErr result) (fault_count self.old) (fault_count self.new) };

    /// How often it has failed. It stands still at its last value.
    fn faults(&self) -> u64
        ensures { result ≡ fault_count self.now };

    /// Only a device that tells its content has images.
    ghost told: { (d : Self) (c : List ℕ) → may_leave d c → IsTrue tells };

    /// What a read gives is one of the images.
    ghost seen_is_one: { (d : Self) → IsTrue tells → may_leave d (seen d) };

    /// This moment is one of those since an earlier one.
    ghost counts_now: { (d : Self) (t : ℕ) (c : List ℕ) → t ≤ moment d → may_leave d c
        → left_since d t c };

    /// Since this moment there is no other.
    ghost only_now: { (d : Self) (c : List ℕ) → left_since d (moment d) c → may_leave d c };
}
