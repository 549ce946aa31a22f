ghost use Rattle.std.specs.Prelude.{◌≡◌, ◌<◌, ◌^◌, ◌⊎◌, length, IfOk, IfErr, IfSome, Err};
ghost use Rattle.call_journal.specs.Words.{IsDeed};
ghost use Rattle.core_model.specs.Entries.{limit_of_number, table_of_space};
ghost use Rattle.core_model.specs.Law.{add_to};
ghost use Rattle.hub.specs.Calls.{Answers, IsAddable, IsHashFor, IsUnfiled, deed_of_add};
ghost use Rattle.table_model.specs.Calls.{answer, index_answer, tables_after};
ghost use Rattle.type_store.specs.Views.{tables_in};

use crate::places::make_room;
use crate::state::HubState;
use call_journal::{Deed, Limit, TableKind, word_of};
use leaf_grammar::Space;
use srv_edge::{Device, Refusal, limit};
use table_model::{add_leaf, add_name};
use type_store::Tables;

impl<D: Device> HubState<D> {
    // Adds to a table. An Ok has an entry, whatever was answered; an Err changed nothing.
    pub(crate) fn add(
        &mut self,
        caller: u8,
        kind: TableKind,
        bytes: &[u8],
        hash: u32,
    ) -> Result<Result<u32, Refusal>, Refusal>
        requires judged { IsAddable kind bytes.now }
        requires hash { IsHashFor kind bytes.now hash }
        requires short { length bytes.now < 2 ^ 32 }
        ensures filed { IfOk result (λ reply. Answers self.old.story self.new.story caller
            (add_to kind bytes.now) (index_answer reply)) }
        ensures refused { IfErr result (λ why. (self.new ≡ self.old)
            × IsUnfiled self.old.story.basis self.old.story.entries why) }
    {
        let open = u32::from(self.file.is_none());
        make_room(&mut self.journal, &self.limits, 1 + open)?;
        let reply = add_to(&mut self.tables, kind, bytes, hash);
        match deed_of_add(kind, bytes.len() as u32, reply) {
            Some(deed) => {
                self.journal.push(word_of(caller, deed));
                Ok(reply)
            }
            None => Err(Refusal::OutOfMemory),
        }
    }
}

// Adds what was judged and hashed to its table.
fn add_to(tables: &mut Tables, kind: TableKind, bytes: &[u8], hash: u32) -> Result<u32, Refusal>
    requires judged { IsAddable kind bytes.now }
    requires hash { IsHashFor kind bytes.now hash }
    ensures { ((index_answer result ≡ answer (tables_in tables.old) (add_to kind bytes.now))
        × (tables_in tables.new ≡ tables_after (tables_in tables.old) (add_to kind bytes.now)))
        ⊎ ((result ≡ Err Refusal.OutOfMemory) × (tables.new ≡ tables.old)) }
{
    let types = tables.types.len();
    let items = tables.items.len();
    match kind {
        TableKind::Types => add_leaf(Space::Types, &mut tables.types, types, items, bytes, hash),
        TableKind::Items => add_leaf(Space::Items, &mut tables.items, types, items, bytes, hash),
        TableKind::Names => add_name(&mut tables.names, bytes),
    }
}

// The deed of an add of so many bytes that was answered so, if it has one: what wants memory has
// none.
fn deed_of_add(table: TableKind, length: u32, reply: Result<u32, Refusal>) -> Option<Deed>
    ensures deed { result ≡ deed_of_add table length reply }
    ensures small { IfSome result IsDeed }
{
    match reply {
        Ok(at) => Some(Deed::Added { table, at }),
        Err(Refusal::NotGiven { space, index }) => Some(Deed::NotGiven {
            index,
            space: table_of_space(space),
            table,
        }),
        Err(Refusal::Full { which, .. }) => Some(Deed::Full {
            length,
            limit: limit_of_number(which),
            table,
        }),
        Err(_) => None,
    }
}

// The table of a space's number.
fn table_of_space(space: u8) -> TableKind
    ensures { result ≡ table_of_space space }
{
    match space {
        0 => TableKind::Types,
        _ => TableKind::Items,
    }
}

// The limit of a table, by its number.
fn limit_of_number(which: u8) -> Limit
    ensures { result ≡ limit_of_number which }
{
    match which {
        limit::RECORDS => Limit::Records,
        limit::BYTES => Limit::Bytes,
        _ => Limit::Names,
    }
}
