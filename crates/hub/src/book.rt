ghost use Rattle.std.specs.Prelude.{◌≡◌, Some};
ghost use Rattle.hub.specs.Books.{IsJustOpened};
ghost use Rattle.type_store.specs.Views.{tables_in};

use srv_edge::Device;
use std::marker::Model;
use type_store::{PdbFile, Tables};

/// The tables of a server, and the file that they came from and go to. They go on from the newest
/// commit that has begun to come to the file.
#[derive(Drop)]
pub struct Book<D: Device> {
    pub tables: Tables,
    /// The file, where no commit is under way.
    pub file: Option<PdbFile<D>>,
    /// The number of the last acknowledged commit, or that of the file as it was opened.
    pub acked: u32,
}

impl<D: Device> Model for Book<D> {
    ghost use Rattle.hub.specs.Books.{BookView, IsKept};
    ghost use Rattle.type_store.specs.Views.{tables_in};

    ghost Value = { BookView D };

    ghost view = { λ b. record { tables = tables_in b.tables; file = b.file; acked = b.acked } };

    ghost invariant = { λ b. IsKept (tables_in b.tables) b.file };
}

impl<D: Device> Book<D> {
    /// A book of a file that was just opened or created, with its tables.
    pub fn new(file: PdbFile<D>, tables: Tables) -> Book<D>
        requires { IsJustOpened file (tables_in tables) }
        ensures { result
            ≡ record { tables = tables_in tables; file = Some file; acked = file.last } }
    {
        let acked = file.age();
        Book {
            tables,
            file: Some(file),
            acked,
        }
    }
}
