ghost use Rattle.std.specs.Prelude.{◌≡◌, [], Some, length};

use crate::book::Book;
use crate::gets::counts_of;
use call_journal::Journal;
use srv_edge::{Device, Limits};
use std::alloc::Global;
use std::marker::Model;
use std::snapshot::Snapshot;
use type_store::{Counts, PdbFile, Tables};

/// The tables of a server, their file while no commit is under way, and the journal of the calls
/// since the file was opened. Clauses see the story that they tell, and the file.
pub struct HubState<D: Device> {
    pub(crate) alloc: Global,
    pub(crate) tables: Tables,
    pub(crate) file: Option<PdbFile<D>>,
    pub(crate) journal: Journal,
    /// The number of the last acknowledged commit, or that of the file as it was opened.
    pub(crate) acked: u32,
    /// The number of the last commit that began, or that of the file as it was opened.
    pub(crate) last: u32,
    pub(crate) limits: Limits,
    /// As it was opened: the number of its commit, how much the tables had, and for clauses all
    /// of it.
    pub(crate) age: u32,
    pub(crate) start: Counts,
    pub(crate) opened: Snapshot<PdbFile<D>>,
    pub(crate) first: Snapshot<Tables>,
}

impl<D: Device> Model for HubState<D> {
    ghost use Rattle.hub.specs.Bases.{basis_of};
    ghost use Rattle.hub.specs.Kept.{IsFrom, IsHub};
    ghost use Rattle.hub.specs.Stories.{HubView, entries_in};
    ghost use Rattle.type_store.specs.Views.{tables_in};

    ghost Value = { HubView D };

    ghost view = { λ s. record {
      story = record {
        basis = basis_of D.Device s.limits s.opened.value (tables_in s.first.value);
        entries = entries_in (tables_in s.tables) s.journal.words;
      };
      file = s.file;
    } };

    ghost invariant = { λ s. IsHub D.Device
        (basis_of D.Device s.limits s.opened.value (tables_in s.first.value))
        (entries_in (tables_in s.tables) s.journal.words)
        (tables_in s.tables) s.journal.spare s.acked s.last s.file
        × IsFrom (basis_of D.Device s.limits s.opened.value (tables_in s.first.value))
        s.age s.start.types s.start.items s.start.names };
}

impl<D: Device> HubState<D> {
    ghost use Rattle.core_model.specs.History.{IsLegal};
    ghost use Rattle.hub.specs.Bases.{basis_of};
    ghost use Rattle.hub.specs.Ends.{IsNew};
    ghost use Rattle.type_store.specs.Files.{FileView};

    // The value over a book as just opened or created, with no call yet.
    pub(crate) fn of_book(alloc: Global, book: Book<D>, limits: Limits) -> HubState<D>
        requires { (file : FileView D) × IsNew limits file book }
        ensures basis { (file : FileView D) → book.file ≡ Some file
            → result.story.basis ≡ basis_of D.Device limits file book.tables }
        ensures entries { result.story.entries ≡ [] }
        ensures file { result.file ≡ book.file }
    {
        let Book {
            tables,
            file,
            acked,
        } = book;
        let Some(file) = file else { unreachable!() };
        let age = file.age();
        let opened = Snapshot::of(&file);
        let first = Snapshot::of(&tables);
        let start = counts_of(&tables);
        HubState {
            alloc,
            tables,
            file: Some(file),
            journal: Journal::new(alloc),
            acked,
            last: age,
            limits,
            age,
            start,
            opened,
            first,
        }
    }

    // The number of entries.
    pub(crate) fn filed(&self) -> u32
        ensures count { result ≡ length self.now.story.entries }
        ensures lawful { IsLegal self.now.story.basis self.now.story.entries }
    {
        self.journal.len()
    }
}
