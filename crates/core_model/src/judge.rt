ghost use Rattle.std.specs.Prelude.{◌≡◌, ◌<◌, ◌^◌, ◌↔◌, length};
ghost use Rattle.core_model.specs.Replay.{IfIllegal, IsFirstWrong, LeadsTo};

use crate::state::{ReplayState, has_start, is_end, next_state};
use crate::verdict::Verdict;
use srv_edge::{RecordList, Text};

/// Judges whether words are those of a history that leads from the first types, items and names, as many as
/// `start` says, to the whole lists. It takes no memory.
///
/// Of what a word cannot show it says nothing: that what was added is a name, or a leaf whose fields name records,
/// and that there was room for it; and that a limit was met. The first commit may have any number but 0, since the
/// words do not tell that of the file. Where there are fewer types, items or names than `start` says, the words are
/// wrong at place 0.
///
/// Each word of an add searches its list from the front, so the time grows with the number of adds times the
/// length of their list. Every other word takes the same time, wherever it stands.
pub fn replay(
    types: &RecordList,
    items: &RecordList,
    names: &[Text],
    start: (u32, u32, u32),
    words: &[u64],
) -> Verdict
    requires { length words.now < 2 ^ 32 }
    ensures legal { result ≡ Verdict.Legal ↔ LeadsTo start words.now
        (record { types = types.now; items = items.now; names = names.now }) }
    ensures least { IfIllegal result (IsFirstWrong start words.now
        (record { types = types.now; items = items.now; names = names.now })) }
{
    if !has_start(types, items, names, start) {
        return Verdict::Illegal { at: 0 };
    }
    let mut state = ReplayState {
        types: start.0,
        items: start.1,
        names: start.2 as usize,
        last: None,
        under_way: None,
    };
    for (at, word) in words.iter().enumerate() {
        match next_state(types, items, names, state, *word) {
            Some(further) => state = further,
            None => return Verdict::Illegal { at: at as u32 },
        }
    }
    if is_end(types, items, names, state) {
        Verdict::Legal
    } else {
        Verdict::Illegal {
            at: words.len() as u32,
        }
    }
}
