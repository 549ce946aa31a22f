//! Commits of tables to a file.

ghost use Rattle.std.specs.Prelude.{◌≡◌, ◌+◌, List, ℕ, Some, IfOk, IfErr, OnOk, OnErr, IsErr};
ghost use Rattle.srv_edge.specs.Count.{HasCause};
ghost use Rattle.srv_edge.specs.Disk.{LeavesOnly};
ghost use Rattle.table_model.specs.File.{newest_cut, settled};
ghost use Rattle.type_store.specs.Commits.{HoldsOne};
ghost use Rattle.type_store.specs.Committed.{GoesOn};
ghost use Rattle.type_store.specs.Files.{FailsOn, FailsTo, HasBounds, IsRefused, IsShown, IsWrittenOver, MayBegin, MayShow, Stays, TakesBase, cut_of, prepared};
ghost use Rattle.type_store.specs.Sharing.{Shares};
ghost use Rattle.type_store.specs.Views.{tables_in};

use crate::begun::CommitCut;
use crate::commits::{commits_can_be_planned, commits_write_tables};
use crate::file::PdbFile;
use crate::prepare::{cut_of_tables, plan_commit};
use crate::tables::Tables;
use crate::writing::{turn, write_to};
use committer::{CommitFault, Prepared};
use srv_edge::Device;
use std::alloc::Global;
use std::marker::Model;
use std::snapshot::Snapshot;

/// The limit of a commit's number, by its number in a refusal.
pub const AGE: u8 = 5;

/// A device failed in the commit of this number.
#[derive(Clone, Copy, Debug, PartialEq, Eq)]
pub struct DiskFault {
    pub number: u32,
}

/// A commit that was planned, and that may be written into its file.
#[derive(Drop)]
pub struct Pending {
    pub(crate) prepared: Prepared,
    pub(crate) cut: CommitCut,
}

impl Model for Pending {
    ghost use Rattle.type_store.specs.Files as files;
    ghost use Rattle.std.specs.Prelude.{◌≡◌, false};
    ghost use Rattle.type_store.specs.Inside.{cut_in};

    ghost Value = { files.Pending };

    ghost view = { λ p. record { cut = cut_in p.cut; plan = p.prepared } };

    // Its image is not one that was opened or created.
    ghost invariant = { λ p. p.cut.fresh ≡ false };
}

impl Pending {
    /// The commit's number.
    pub fn number(&self) -> u32
        ensures { result ≡ self.now.cut.number }
    {
        self.cut.number()
    }
}

impl<D: Device> PdbFile<D> {
    /// Plans a commit of the tables under the next number, which is then used up. It makes no call of
    /// the device. It takes memory for what the commit writes, and for the new directory and map.
    pub fn prepare(&mut self, alloc: Global, tables: &Tables) -> Result<Pending, CommitFault>
        requires goes_on { GoesOn (newest_cut self.old.file).tables (tables_in tables.now) }
        requires bounds { HasBounds self.old.bounds (tables_in tables.now) }
        ensures ok { IfOk result (λ p. (p.cut ≡ cut_of (self.old.last + 1) (tables_in tables.now))
            × (self.new ≡ prepared p self.old)) }
        ensures may_begin { OnOk result
            (MayBegin self.old.shape self.old.last (tables_in tables.now)) }
        // A block of a stream that need not be written keeps its number.
        ensures shares { IfOk result (λ p. Shares self.old.shape self.old.fresh
            (newest_cut self.old.file).tables (tables_in tables.now) self.old.image p.plan.image) }
        ensures err { OnErr result (self.new ≡ self.old) }
        ensures cause { IfErr result (IsRefused self.old (tables_in tables.now)) }
    {
        if self.last == u32::MAX {
            return Err(CommitFault::Full {
                which: AGE,
                needed: 0,
            });
        }
        commits_write_tables();
        commits_can_be_planned();
        let _image = self.store.image();
        let number = self.last + 1;
        let cut = cut_of_tables(number, tables);
        let (prepared, base) = plan_commit(alloc, &self.store, &self.origin, &self.newest, &cut)?;
        let pending = Pending {
            prepared,
            cut: CommitCut::new(number, Snapshot::of(tables), base),
        };
        self.last = number;
        self.ready = Some(Snapshot::of(&pending));
        Ok(pending)
    }

    /// Writes the commit that was prepared last, and was not written since. It takes no memory. The
    /// device calls are those of a store's `write`.
    pub fn write(&mut self, pending: Pending) -> Result<u32, DiskFault>
        requires { self.old.ready ≡ Some pending }
        // A crash at any moment leaves a commit that it might have left, or this one.
        ensures any_moment { LeavesOnly D.moment D.left_since self.old.device self.new.device
            (HoldsOne self.old.bounds (MayShow self.old.file pending.cut)) }
        ensures shown { IsShown D.may_leave self.new }
        ensures ok { IfOk result (λ number. (number ≡ pending.cut.number)
            × (self.new.file ≡ settled pending.cut)) }
        // All that a crash leaves then is written for the commit.
        ensures written { OnOk result ((image : List ℕ) → D.may_leave self.new.device image
            → IsWrittenOver self.old.bounds self.old.opened image pending.cut) }
        ensures err { IfErr result (λ fault. (fault.number ≡ pending.cut.number)
            × FailsTo self.old.file pending.cut self.new.file) }
        // On what the next commit builds.
        ensures takes { OnOk result (TakesBase pending self.new) }
        ensures fails { OnErr result (FailsOn self.old pending self.new) }
        ensures stays { Stays self.old self.new }
        ensures cause { HasCause (IsErr result)
            (D.fault_count self.old.device) (D.fault_count self.new.device) }
        ensures loans { D.loans self.new.device ≡ D.loans self.old.device }
    {
        // What is written holds its tables.
        commits_write_tables();
        let number = pending.cut.number();
        let written = write_to(&mut self.store, pending.prepared);
        self.ready = None;
        turn(&mut self.newest, &mut self.before, pending.cut, &written);
        match written {
            Ok(()) => Ok(number),
            Err(_) => Err(DiskFault { number }),
        }
    }
}
