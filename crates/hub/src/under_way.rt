ghost use Rattle.std.specs.Prelude.{◌≡◌, ◌≤◌, IsTrue};
ghost use Rattle.srv_edge.specs.Count.{HasCause};
ghost use Rattle.srv_edge.specs.Disk.{LeavesOnly};
ghost use Rattle.hub.specs.Kept.{HoldsAllowed};
ghost use Rattle.hub.specs.Passes.{number_of};

use crate::state::HubState;
use srv_edge::Device;
use std::marker::Model;
use std::snapshot::Snapshot;
use type_store::{DiskFault, PdbFile, Pending};

/// The file of a hub, out for a commit that has begun. It has to be written and ended: neither this
/// nor what comes of it may be let go.
pub struct Out<D: Device> {
    pub(crate) file: PdbFile<D>,
    pub(crate) pending: Pending,
    /// For clauses the hub's value as the commit began.
    pub(crate) kept: Snapshot<HubState<D>>,
}

impl<D: Device> Model for Out<D> {
    ghost use Rattle.hub.specs.Kept.{IsOut};
    ghost use Rattle.hub.specs.Passes.{OutView};

    ghost Value = { OutView D };

    ghost view = { λ o. record {
      basis = o.kept.value.story.basis;
      kept = o.kept.value.story.entries;
      device = o.file.device;
    } };

    ghost invariant = { λ o. IsOut D.Device o.kept.value.story.basis o.kept.value.story.entries
        o.pending o.file };
}

/// The file of a hub once a commit was written, or failed.
pub struct Done<D: Device> {
    pub(crate) file: PdbFile<D>,
    pub(crate) number: u32,
    pub(crate) failed: bool,
    /// For clauses the hub's value as the commit began.
    pub(crate) kept: Snapshot<HubState<D>>,
}

impl<D: Device> Model for Done<D> {
    ghost use Rattle.hub.specs.Kept.{IsDone};
    ghost use Rattle.hub.specs.Passes.{DoneView};

    ghost Value = { DoneView D };

    ghost view = { λ d. record {
      basis = d.kept.value.story.basis;
      kept = d.kept.value.story.entries;
      device = d.file.device;
      failed = d.failed;
    } };

    ghost invariant = { λ d. IsDone D.Device d.kept.value.story.basis d.kept.value.story.entries
        d.number d.failed d.file };
}

impl<D: Device> Out<D> {
    /// The commit's number.
    pub fn number(&self) -> u32
        ensures { result ≡ number_of self.now.basis self.now.kept }
    {
        self.pending.number()
    }

    /// Writes the commit. It waits for nobody and takes no memory.
    pub fn write_out(self) -> Done<D>
        ensures basis { result.basis ≡ self.basis }
        ensures kept { result.kept ≡ self.kept }
        // A crash at any moment leaves a commit that is allowed behind the history up to its
        // beginning.
        ensures any_moment { LeavesOnly D.moment D.left_since self.device result.device
            (HoldsAllowed self.basis self.kept) }
        ensures cause { HasCause (IsTrue result.failed)
            (D.fault_count self.device) (D.fault_count result.device) }
        ensures loans { D.loans result.device ≡ D.loans self.device }
    {
        let Out {
            mut file,
            pending,
            kept,
        } = self;
        match file.write(pending) {
            Ok(number) => Done {
                file,
                number,
                failed: false,
                kept,
            },
            Err(DiskFault { number }) => Done {
                file,
                number,
                failed: true,
                kept,
            },
        }
    }
}
