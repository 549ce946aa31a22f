//! A commit that has begun.

ghost use Rattle.std.specs.Prelude.{◌≡◌};
ghost use Rattle.type_store.specs.Commit.{extent_of};
ghost use Rattle.type_store.specs.Files.{cut_of};
ghost use Rattle.type_store.specs.Views.{tables_in};

use crate::base::Base;
use crate::tables::Tables;
use std::marker::Model;
use std::snapshot::Snapshot;

/// The number of a commit, how far the streams of its image reach, and for clauses the tables as they
/// stood when it began.
#[derive(Drop)]
pub(crate) struct CommitCut {
    number: u32,
    base: Base,
    tables: Snapshot<Tables>,
}

impl Model for CommitCut {
    ghost use Rattle.std.specs.Prelude.{◌≡◌};
    ghost use Rattle.type_store.specs.Commit.{extent_of};
    ghost use Rattle.type_store.specs.Files.{Begun, cut_of};
    ghost use Rattle.type_store.specs.Views.{tables_in};

    ghost Value = { Begun };

    ghost view = { λ c. record
        { cut = cut_of c.number (tables_in c.tables.value); fresh = c.base.fresh } };

    ghost invariant = { λ c. c.base ≡ extent_of c.base.fresh (tables_in c.tables.value) };
}

impl CommitCut {
    pub(crate) fn new(number: u32, tables: Snapshot<Tables>, base: Base) -> CommitCut
        requires { base ≡ extent_of base.fresh (tables_in tables.value) }
        ensures { result ≡ record
            { cut = cut_of number (tables_in tables.value); fresh = base.fresh } }
    {
        CommitCut {
            number,
            base,
            tables,
        }
    }

    pub(crate) fn number(&self) -> u32
        ensures { result ≡ self.now.cut.number }
    {
        self.number
    }

    /// How far the streams of its image reach.
    pub(crate) fn base(&self) -> &Base
        ensures { result.now ≡ extent_of self.now.fresh self.now.cut.tables }
    {
        &self.base
    }
}
