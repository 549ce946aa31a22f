//! What a commit writes.

ghost use Rattle.std.specs.Prelude.{◌≡◌};

use names_table::NamesTable;
use record_table::RecordTable;
use std::marker::Model;

/// The tables that a commit writes, and its number, which becomes the file's age.
#[derive(Drop)]
pub(crate) struct CutRef<'a> {
    number: u32,
    types: &'a RecordTable,
    items: &'a RecordTable,
    names: &'a NamesTable,
}

impl<'a> Model for CutRef<'a> {
    ghost use Rattle.table_model.specs.Cut.{Cut};

    ghost Value = { Cut };

    ghost view = { λ c. record {
      number = c.number;
      tables = record { types = c.types.now; items = c.items.now; names = c.names.now };
    } };
}

impl<'a> CutRef<'a> {
    pub(crate) fn new(
        number: u32,
        types: &'a RecordTable,
        items: &'a RecordTable,
        names: &'a NamesTable,
    ) -> CutRef<'a>
        ensures { result ≡ record {
          number = number;
          tables = record { types = types.now; items = items.now; names = names.now };
        } }
    {
        CutRef {
            number,
            types,
            items,
            names,
        }
    }

    pub(crate) fn number(&self) -> u32
        ensures { result ≡ self.now.number }
    {
        self.number
    }

    pub(crate) fn types(&self) -> &RecordTable
        ensures { result.now ≡ self.now.tables.types }
    {
        self.types
    }

    pub(crate) fn items(&self) -> &RecordTable
        ensures { result.now ≡ self.now.tables.items }
    {
        self.items
    }

    pub(crate) fn names(&self) -> &NamesTable
        ensures { result.now ≡ self.now.tables.names }
    {
        self.names
    }
}
