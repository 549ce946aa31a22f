ghost use Rattle.std.specs.Prelude.{◌≡◌, ◌≤◌, ◌+◌, Ok, length, IfOk, IfErr, IfSome};
ghost use Rattle.std.specs.Option.{option_copied};
ghost use Rattle.core_model.specs.Legal.{stands_at};
ghost use Rattle.hub.specs.Calls.{Answers, Gives, IsUnfiled, answer_of_get, get_of, space_of};
ghost use Rattle.srv_edge.specs.declared.piece.TheConstants.{PIECE_BYTES};
ghost use Rattle.table_model.specs.Calls.{answer};
ghost use Rattle.table_model.specs.declared.call.Call.TheVariants as calls;
ghost use Rattle.table_model.specs.declared.call.Outcome.TheVariants as outcomes;
ghost use Rattle.type_store.specs.Views.{tables_in};

use crate::places::make_room;
use crate::state::HubState;
use call_journal::{Deed, TableKind, word_of};
use srv_edge::{Device, Piece, Refusal, space};
use type_store::{Counts, Tables};

impl<D: Device> HubState<D> {
    // Puts what stands in a table behind what the piece holds. An Ok has an entry, whatever was
    // answered; an Err changed nothing.
    pub(crate) fn get(
        &mut self,
        caller: u8,
        kind: TableKind,
        at: u32,
        out: &mut Piece,
    ) -> Result<Result<(), Refusal>, Refusal>
        requires { length out.old + 65537 ≤ PIECE_BYTES }
        ensures filed { IfOk result (λ reply. Answers self.old.story self.new.story caller
            (get_of kind at) (answer_of_get reply out.old out.new)) }
        ensures given { IfOk result (λ reply. Gives reply out.old out.new) }
        ensures refused { IfErr result (λ why. (self.new ≡ self.old) × (out.new ≡ out.old)
            × IsUnfiled self.old.story.basis self.old.story.entries why) }
    {
        let open = u32::from(self.file.is_none());
        make_room(&mut self.journal, &self.limits, 1 + open)?;
        self.journal
            .push(word_of(caller, Deed::Asked { table: kind, at }));
        Ok(hand_out(&self.tables, kind, at, out))
    }

    // How much the tables have. An Ok has an entry; an Err changed nothing.
    pub(crate) fn counts(&mut self, caller: u8) -> Result<Counts, Refusal>
        ensures filed { IfOk result (λ counts. Answers self.old.story self.new.story caller
            calls.Counts (Ok (outcomes.Counts counts.types counts.items counts.names))) }
        ensures refused { IfErr result (λ why. (self.new ≡ self.old)
            × IsUnfiled self.old.story.basis self.old.story.entries why) }
    {
        let open = u32::from(self.file.is_none());
        make_room(&mut self.journal, &self.limits, 1 + open)?;
        self.journal.push(word_of(caller, Deed::Counted));
        Ok(counts_of(&self.tables))
    }
}

// How many types, items and names there are.
pub(crate) fn counts_of(tables: &Tables) -> Counts
    ensures types { result.types ≡ length tables.now.types.records }
    ensures items { result.items ≡ length tables.now.items.records }
    ensures names { result.names ≡ length tables.now.names.names }
{
    Counts {
        types: tables.types.len(),
        items: tables.items.len(),
        names: tables.names.len(),
    }
}

// Puts what stands at an index or an offset behind what the piece holds.
fn hand_out(tables: &Tables, kind: TableKind, at: u32, out: &mut Piece) -> Result<(), Refusal>
    requires { length out.old + 65537 ≤ PIECE_BYTES }
    ensures answer { answer_of_get result out.old out.new
        ≡ answer (tables_in tables.now) (get_of kind at) }
    ensures given { Gives result out.old out.new }
{
    match found_in(tables, kind, at) {
        Some(bytes) => {
            out.push(bytes);
            Ok(())
        }
        None => Err(Refusal::NotGiven {
            space: space_of(kind),
            index: at,
        }),
    }
}

// What stands at an index or an offset.
fn found_in(tables: &Tables, kind: TableKind, at: u32) -> Option<&[u8]>
    ensures found { option_copied result ≡ stands_at (tables_in tables.now) kind at }
    ensures length { IfSome result (λ bytes. length bytes.now ≤ 65537) }
{
    match kind {
        TableKind::Types => tables.types.get(at),
        TableKind::Items => tables.items.get(at),
        TableKind::Names => tables.names.get(at),
    }
}

// The number of a table in a refusal.
fn space_of(kind: TableKind) -> u8
    ensures { result ≡ space_of kind }
{
    match kind {
        TableKind::Types => space::TYPES,
        TableKind::Items => space::ITEMS,
        TableKind::Names => space::NAMES,
    }
}
