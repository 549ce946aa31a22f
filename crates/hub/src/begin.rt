ghost use Rattle.std.specs.Prelude.{◌≡◌, ◌≢◌, None, IfOk, IfErr};
ghost use Rattle.core_model.specs.History.{standing};
ghost use Rattle.hub.specs.Calls.{IsBeginning, IsUnbegun, IsUnderWay, IsUnfiled};
ghost use Rattle.hub.specs.Refusals.{refusal_of};

use crate::places::make_room;
use crate::state::HubState;
use crate::under_way::Out;
use call_journal::{Deed, word_of};
use committer::CommitFault;
use srv_edge::{Device, Refusal};
use std::snapshot::Snapshot;
use type_store::PdbFile;

impl<D: Device> HubState<D> {
    // Begins a commit of the tables as they stand. An Ok has an entry: of the commit, or of the
    // refusal while another is under way. An Err changed nothing.
    pub(crate) fn begin(&mut self, caller: u8) -> Result<Result<Out<D>, Refusal>, Refusal>
        ensures begun { IfOk result (λ reply. IfOk reply (λ out.
            IsBeginning self.old.story self.new.story caller
            × (out.basis ≡ self.new.story.basis) × (out.kept ≡ self.new.story.entries))) }
        ensures under_way { IfOk result (λ reply. IfErr reply
            (IsUnderWay self.old.story self.new.story caller)) }
        ensures refused { IfErr result (λ why. (self.new ≡ self.old)
            × IsUnbegun self.old.story.basis self.old.story.entries why) }
    {
        if self.file.is_none() {
            return Ok(Err(self.refuse(caller)?));
        }
        make_room(&mut self.journal, &self.limits, 2)?;
        let mut file = self.file.take().unwrap();
        match file.prepare(self.alloc, &self.tables) {
            Ok(pending) => {
                self.last = pending.number();
                self.journal
                    .push(word_of(caller, Deed::Began { number: self.last }));
                let kept = Snapshot::of(&*self);
                Ok(Ok(Out {
                    file,
                    pending,
                    kept,
                }))
            }
            Err(fault) => {
                put(&mut self.file, file);
                Err(refusal_of(fault))
            }
        }
    }

    // Refuses a commit, since another is under way.
    fn refuse(&mut self, caller: u8) -> Result<Refusal, Refusal>
        requires { (standing self.old.story.basis self.old.story.entries).under_way ≢ None }
        ensures under_way { IfOk result (IsUnderWay self.old.story self.new.story caller) }
        ensures refused { IfErr result (λ why. (self.new ≡ self.old)
            × IsUnfiled self.old.story.basis self.old.story.entries why) }
    {
        make_room(&mut self.journal, &self.limits, 2)?;
        let number = self.last;
        self.journal
            .push(word_of(caller, Deed::Underway { number }));
        Ok(Refusal::Underway { number })
    }
}

// Puts the file back. It was not there: no file may be let go.
pub(crate) fn put<D: Device>(home: &mut Option<PdbFile<D>>, file: PdbFile<D>)
    requires { home.old ≡ None }
    ensures { home.new ≡ Some file }
{
    match home.replace(file) {
        None => (),
        Some(_other) => unreachable!(),
    }
}

// Why a commit is refused that was not prepared. Preparing meets no fault of the device.
fn refusal_of(fault: CommitFault) -> Refusal
    ensures { result ≡ refusal_of fault }
{
    match fault {
        CommitFault::Full { which, needed } => Refusal::Full { which, needed },
        CommitFault::DiskFault | CommitFault::OutOfMemory => Refusal::OutOfMemory,
    }
}
