ghost use Rattle.std.specs.Prelude.{◌≡◌, [], not};
ghost use Rattle.call_journal.specs.declared.deed.Deed.TheVariants as deeds;
ghost use Rattle.core_model.specs.Entries.{entry_of};
ghost use Rattle.hub.specs.Calls.{Files};
ghost use Rattle.hub.specs.Ends.{IsLeftOf};
ghost use Rattle.hub.specs.Kept.{IsStillOpen};
ghost use Rattle.hub.specs.Passes.{answer_of_commit, number_of};

use crate::begin::put;
use crate::book::Book;
use crate::state::HubState;
use crate::under_way::Done;
use call_journal::{Deed, Journal, word_of};
use srv_edge::{Device, Refusal};
use type_store::Counts;

/// What a hub leaves: its book, the journal of all calls, how much the tables had and the number of
/// the file's commit when it was opened.
#[derive(Drop)]
pub struct Ended<D: Device> {
    pub book: Book<D>,
    pub journal: Journal,
    pub start: Counts,
    pub age: u32,
}

impl<D: Device> HubState<D> {
    // The file of a commit that is done comes home. It takes no memory.
    pub(crate) fn end(&mut self, caller: u8, done: Done<D>) -> Result<u32, Refusal>
        requires basis { done.basis ≡ self.old.story.basis }
        requires still { IsStillOpen self.old.story.basis caller done.kept self.old.story.entries }
        ensures filed { Files self.old.story self.new.story caller
            (entry_of caller (deeds.Ended (number_of done.basis done.kept) (not done.failed)) []) }
        ensures reply { result
            ≡ answer_of_commit (not done.failed) (number_of done.basis done.kept) }
    {
        let Done {
            file,
            number,
            failed,
            kept: _,
        } = done;
        let acknowledged = !failed;
        self.journal.push(word_of(
            caller,
            Deed::Ended {
                number,
                acknowledged,
            },
        ));
        put(&mut self.file, file);
        if failed {
            return Err(Refusal::DiskFault { number });
        }
        self.acked = number;
        Ok(number)
    }

    // What is left when no more calls come.
    pub(crate) fn into_ended(self) -> Ended<D>
        ensures { IsLeftOf D.Device self result }
    {
        let HubState {
            alloc: _,
            tables,
            file,
            journal,
            acked,
            last: _,
            limits: _,
            age,
            start,
            opened: _,
            first: _,
        } = self;
        let book = Book {
            tables,
            file,
            acked,
        };
        Ended {
            book,
            journal,
            start,
            age,
        }
    }
}
