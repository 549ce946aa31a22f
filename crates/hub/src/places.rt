ghost use Rattle.std.specs.Prelude.{◌≡◌, ◌≤◌, ◌<◌, ◌+◌, ◌⊎◌, length, IfErr, OnOk};

use call_journal::Journal;
use srv_edge::{Limits, Refusal};

/// The limit of a server's calls, by its number in a refusal.
pub const CALLS: u8 = 4;

// Makes room for so many entries more.
pub(crate) fn make_room(journal: &mut Journal, limits: &Limits, needed: u32) -> Result<(), Refusal>
    ensures words { journal.new.words ≡ journal.old.words }
    ensures spare { journal.old.spare ≤ journal.new.spare }
    ensures room { OnOk result (needed ≤ journal.new.spare) }
    ensures places { OnOk result (length journal.old.words + needed ≤ limits.now.calls) }
    ensures cause { IfErr result (λ why. ((why ≡ Refusal.Full CALLS limits.now.calls)
        × (limits.now.calls < length journal.old.words + needed)) ⊎ (why ≡ Refusal.OutOfMemory)) }
{
    if u64::from(journal.len()) + u64::from(needed) > u64::from(limits.calls) {
        return Err(Refusal::Full {
            which: CALLS,
            needed: limits.calls,
        });
    }
    match journal.reserve(needed) {
        Ok(()) => Ok(()),
        Err(_) => Err(Refusal::OutOfMemory),
    }
}
