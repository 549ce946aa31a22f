ghost use Rattle.std.specs.Prelude.{◌≡◌, ◌+◌, ◌∷◌, is_some, true};
ghost use Rattle.srv_edge.specs.declared.kind.TheConstants as kinds;
ghost use Rattle.type_store.specs.Files.{HasBounds};
ghost use Rattle.type_store.specs.Committed.{GoesOn};
ghost use Rattle.type_store.specs.Views.{tables_in};
ghost use Rattle.table_model.specs.File.{newest_cut};
ghost use Rattle.client_session.specs.Commits.{Acknowledges, Commits, CommitsTo, SoloAnswers, faults_of, loans_of};
ghost use Rattle.client_session.specs.Tables.{index_reply};

use crate::answer::answer_by_tables;
use crate::replies::write_index;
use committer::CommitFault;
use hub::Book;
use request_frames::{Desk, Head, Request};
use srv_edge::{Device, Piece, Refusal, kind};
use std::alloc::Global;
use type_store::{PdbFile, Tables};

/// A desk over a book, to whose file it commits the tables. It waits for nobody.
#[derive(Drop)]
pub struct Solo<'a, D: Device> {
    alloc: Global,
    book: &'a mut Book<D>,
    ghost there: { is_some book.now.file ≡ true },
}

impl<'a, D: Device> Solo<'a, D> {
    /// A desk over a book whose file is there.
    pub fn new(alloc: Global, book: &'a mut Book<D>) -> Solo<'a, D>
        requires { is_some book.old.file ≡ true }
        ensures book { result.book.now ≡ book.old }
        ensures name { result.book.ghost_name ≡ book.entry.ghost_name }
    {
        Solo { alloc, book }
    }
}

impl<'a, D: Device> Desk for Solo<'a, D> {
    type Ground = ();

    ghost answers = { λ old a reply new.
        SoloAnswers D.Device old.book.now a reply new.book.now };

    ghost faults = { λ s. faults_of D.fault_count s.book.now.file };

    ghost loans = { λ s. s.book.ghost_name ∷ loans_of D.loans s.book.now.file };

    fn answer(&mut self, _ground: &(), head: Head, request: &Request, out: &mut Piece) {
        let book = &mut *self.book;
        match *request {
            Request::Commit => write_index(head, kind::COMMIT, commit(self.alloc, book), out),
            _ => answer_by_tables(&mut book.tables, head, request, out),
        }
    }
}

// Commits the tables of a book to its file.
fn commit<D: Device>(alloc: Global, book: &mut Book<D>) -> Result<u32, Refusal>
    requires { is_some book.old.file ≡ true }
    ensures commits { CommitsTo D.Device book.old.file book.old.tables
        (index_reply (kinds.COMMIT + kinds.REPLY) result) book.new.file }
    ensures tables { book.new.tables ≡ book.old.tables }
    ensures acked { Acknowledges book.old.acked (index_reply (kinds.COMMIT + kinds.REPLY) result)
        book.new.acked }
    ensures loans { loans_of D.loans book.new.file ≡ loans_of D.loans book.old.file }
{
    let Some(file) = &mut book.file else {
        unreachable!()
    };
    let answer = commit_to(alloc, file, &book.tables);
    if let Ok(number) = answer {
        book.acked = number;
    }
    answer
}

// Commits tables to a file.
fn commit_to<D: Device>(
    alloc: Global,
    file: &mut PdbFile<D>,
    tables: &Tables,
) -> Result<u32, Refusal>
    requires goes_on { GoesOn (newest_cut file.old.file).tables (tables_in tables.now) }
    requires bounds { HasBounds file.old.bounds (tables_in tables.now) }
    ensures commits { Commits D.Device file.old (tables_in tables.now)
        (index_reply (kinds.COMMIT + kinds.REPLY) result) file.new }
    ensures goes_on { GoesOn (newest_cut file.new.file).tables (tables_in tables.now) }
    ensures bounds { file.new.bounds ≡ file.old.bounds }
    ensures loans { D.loans file.new.device ≡ D.loans file.old.device }
{
    match file.prepare(alloc, tables) {
        Ok(pending) => match file.write(pending) {
            Ok(number) => Ok(number),
            Err(fault) => Err(Refusal::DiskFault {
                number: fault.number,
            }),
        },
        Err(CommitFault::Full { which, needed }) => Err(Refusal::Full { which, needed }),
        Err(CommitFault::DiskFault) => unreachable!(),
        Err(CommitFault::OutOfMemory) => Err(Refusal::OutOfMemory),
    }
}
