//! The store, its states and its commits.

ghost use Rattle.std.specs.Prelude.{◌≡◌, ◌≤◌, ◌<◌, ◌-◌, ◌^◌, ◌↔◌, ℕ, List, [], None, Some, length, IsTrue, drop, IfOk, IfErr, OnOk, OnErr, IsErr, IsErrAnd, IsErrOf, slice_index_or, unwrap_or};
ghost use Rattle.srv_edge.specs.Count.{HasCause};
ghost use Rattle.srv_edge.specs.Disk.{LeavesOnly, Only};
ghost use Rattle.srv_edge.specs.Reading.{OnlyReads};
ghost use Rattle.msf_blocks.specs.Judging.{Tells};
ghost use Rattle.stream_directory.specs.Directory.{StreamBlocks, stream_at};
ghost use Rattle.msf_image.specs.declared.fault.DamageKind.{DamageKind};
ghost use Rattle.msf_image.specs.Faults.{damage_in};
ghost use Rattle.msf_image.specs.Packed.{IsPackable, packed_file, packed_image, packed_super, present};
ghost use Rattle.msf_image.specs.Reads.{IsWhole, content_of, read_file};
ghost use Rattle.msf_image.specs.Relation.{Reads, contents_in};
ghost use Rattle.msf_image.specs.Spelled.{IsSpelled};
ghost use Rattle.cow_streams.specs.declared.fault.Which.{Which};
ghost use Rattle.cow_streams.specs.Edits.{AreEdits, edited};
ghost use Rattle.cow_streams.specs.Plan.{IsPlan};
ghost use Rattle.cow_streams.specs.Planned.{FitsDirectory, new_blocks, new_dir_bytes, new_image, planned};
ghost use Rattle.committer.specs.Change.{Change, IsEither};
ghost use Rattle.committer.specs.Fault.{IsBegun, PassesBlocks, PassesDirectory};
ghost use Rattle.committer.specs.Writing.{CanPut, IsPlanned};

use crate::fault::{BLOCKS, CommitFault, DIRECTORY};
use crate::prepared::Prepared;
use crate::state::State;
use crate::writer::{turn, write_plan};
use cow_streams::{Plan, PlanFault, new_plan, plan};
use msf_blocks::Edit;
use msf_image::{Image, OpenFault, open_image};
use srv_edge::{Device, Failed, Text};
use std::alloc::Global;
use std::marker::Model;
use std::mem;

/// A device with the image of its file. Every image of the device reads as the streams of that image, or
/// in doubt as those of it or of the one before it.
#[derive(Drop)]
pub struct Store<D: Device> {
    device: D,
    limit: u32,
    // the newest image that was begun
    image: Image,
    // in doubt the image that counts where the newest does not
    before: Option<Image>,
}

impl<D: Device> Model for Store<D> {
    ghost use Rattle.committer.specs.Stored.{IsStored, Stored, file_of};

    ghost Value = { Stored D };

    ghost view = { λ s.
        record { device = s.device; limit = s.limit; file = file_of s.before s.image } };

    ghost invariant = { λ s. IsStored D.seen D.may_leave
        (record { device = s.device; limit = s.limit; file = file_of s.before s.image }) };
}

impl<D: Device> Store<D> {
    ghost use Rattle.committer.specs.Stored.{AreAlike, IsSettled, IsSettledFile, Shows, device_of, newest, settled, settled_file};
    ghost use Rattle.committer.specs.Left.{IsLeft, IsOnNewest, IsPut, IsUnchanged, ShowsEither, file_after};

    /// Opens a file, which may have at most so many blocks. A sync comes first, so that nothing is
    /// pending. With a fault the device is handed back. It takes memory as `open_image` does.
    pub fn open(alloc: Global, mut device: D, limit: u32) -> Result<Store<D>, (OpenFault, D)>
        requires most { limit ≤ 2 ^ 20 }
        // What is read is what the file reads as, and the damage is its first.
        ensures reads { IsTrue D.tells → Tells (λ refused. damage_in refused.0)
            (λ s. newest s.file) result (read_file (D.seen device) limit) }
        ensures settled { IfOk result (λ s. IsSettledFile s.file) }
        ensures spelled { IfOk result (λ s. IsSpelled (newest s.file).head
            (newest s.file).directory) }
        ensures limit { IfOk result (λ s. s.limit ≡ limit) }
        // The only image is what a read gives.
        ensures only { IfOk result (λ s. Only (D.seen device) (D.may_leave s.device)) }
        ensures disk_fault { HasCause (IsErrAnd result (λ refused. refused.0 ≡ OpenFault.DiskFault))
            (D.fault_count device) (D.fault_count (device_of result)) }
        ensures only_reads { OnlyReads D.Device device (device_of result) }
    {
        let Ok(()) = device.sync() else {
            return Err((OpenFault::DiskFault, device));
        };
        match open_image(alloc, &mut device, limit) {
            Ok(image) => Ok(Store {
                device,
                limit,
                image,
                before: None,
            }),
            Err(fault) => Err((fault, device)),
        }
    }

    /// Makes the packed file of these streams on an empty device, whose number without a known meaning
    /// is 0. Its blocks are written in rising number, then those of map 1; then come a sync, the
    /// superblock and a sync. With a fault the device is handed back, and what a crash leaves then is
    /// no file yet. It takes memory as `new_plan` does.
    pub fn create(
        alloc: Global,
        mut device: D,
        block: u32,
        streams: &[Text],
        limit: u32,
    ) -> Result<Store<D>, (OpenFault, D)>
        requires packable { IsPackable block (present streams.now) }
        requires within { (packed_super block 0 (present streams.now)).blocks ≤ limit }
        requires most { limit ≤ 2 ^ 20 }
        requires empty { IsTrue D.tells → D.seen device ≡ [] }
        ensures file { IfOk result
            (λ s. s.file ≡ settled (packed_image block 0 (present streams.now))) }
        ensures limit { IfOk result (λ s. s.limit ≡ limit) }
        ensures only { IfOk result
            (λ s. Only (packed_file block 0 (present streams.now)) (D.may_leave s.device)) }
        ensures reads { IsTrue D.tells → IfOk result (λ s. Reads (D.seen s.device) limit
            (newest s.file) (drop 1 (present streams.now))) }
        ensures no_damage { (kind : DamageKind) (place : ℕ)
            → ¬ IsErrAnd result (λ refused. refused.0 ≡ OpenFault.Damage kind place) }
        ensures no_memory { IfErr result
            (λ refused. refused.0 ≡ OpenFault.OutOfMemory → refused.1 ≡ device) }
        ensures disk_fault { HasCause (IsErrAnd result (λ refused. refused.0 ≡ OpenFault.DiskFault))
            (D.fault_count device) (D.fault_count (device_of result)) }
        ensures loans { D.loans (device_of result) ≡ D.loans device }
    {
        let Ok(plan) = new_plan(alloc, block, streams) else {
            return Err((OpenFault::OutOfMemory, device));
        };
        let Ok(()) = write_plan(&mut device, &plan) else {
            return Err((OpenFault::DiskFault, device));
        };
        Ok(Store {
            device,
            limit,
            image: plan.into_image(),
            before: None,
        })
    }

    /// The newest image that was begun. It says what the store keeps: each image of its device reads as
    /// the file says.
    pub fn image(&self) -> &Image
        ensures newest { result.now ≡ newest self.now.file }
        ensures whole { IsWhole (newest self.now.file) }
        ensures limited { (newest self.now.file).head.blocks ≤ self.now.limit }
        ensures alike { AreAlike self.now.file }
        ensures shows { (c : List ℕ) → D.may_leave self.now.device c
            → Shows self.now.limit self.now.file (D.seen self.now.device) c }
        // Once it is settled the file reads as the newest image.
        ensures settles { IsTrue D.tells → Reads
            (settled_file self.now.file (D.seen self.now.device)) self.now.limit
            (newest self.now.file) (contents_in (D.seen self.now.device) (newest self.now.file)) }
    {
        &self.image
    }

    pub fn state(&self) -> State
        ensures settled { (result ≡ State.Settled) ↔ IsSettledFile self.now.file }
        ensures doubt { (result ≡ State.Doubt) ↔ (¬ IsSettledFile self.now.file) }
    {
        match self.before {
            None => State::Settled,
            Some(_) => State::Doubt,
        }
    }

    /// How often the device has failed. This is no call of the device.
    pub fn faults(&self) -> u64
        ensures { result ≡ D.fault_count self.now.device }
    {
        self.device.faults()
    }

    /// Its device, of which each image reads as the file says.
    pub fn close(self) -> D
        ensures device { result ≡ self.device }
        ensures shows { (c : List ℕ) → D.may_leave result c
            → Shows self.limit self.file (D.seen result) c }
    {
        self.device
    }

    /// The content of a stream, by its number, of a file that is not in doubt. An absent stream, one
    /// that is not there, and stream 0 give no bytes. It takes memory for the stream's blocks alone.
    pub fn read_stream(&mut self, alloc: Global, stream: u32) -> Result<Vec<u8>, OpenFault>
        requires settled { IsSettledFile self.old.file }
        ensures content { IsTrue D.tells → IfOk result (λ bytes. bytes.items
            ≡ content_of (D.seen self.old.device) (newest self.old.file).head
            (stream_at (newest self.old.file).directory stream)) }
        ensures stream { IsTrue D.tells → 1 ≤ stream → IfOk result (λ bytes. bytes.items
            ≡ unwrap_or (slice_index_or
            (contents_in (D.seen self.old.device) (newest self.old.file)) (stream - 1) None) []) }
        // Whatever the device tells, it has as many bytes as the directory says.
        ensures size { (s : StreamBlocks) → 1 ≤ stream
            → stream_at (newest self.old.file).directory stream ≡ Some s
            → IfOk result (λ bytes. length bytes.items ≡ s.size) }
        ensures no_damage { (kind : DamageKind) (place : ℕ)
            → ¬ IsErrOf result (OpenFault.Damage kind place) }
        ensures file { self.new.file ≡ self.old.file }
        ensures limit { self.new.limit ≡ self.old.limit }
        ensures disk_fault { HasCause (IsErrOf result OpenFault.DiskFault)
            (D.fault_count self.old.device) (D.fault_count self.new.device) }
        ensures only_reads { OnlyReads D.Device self.old.device self.new.device }
    {
        self.image.read_stream(alloc, &mut self.device, stream)
    }

    /// Plans edits of the newest image that was begun. The device is left alone. It takes memory as
    /// `plan` does.
    pub fn prepare(&self, alloc: Global, edits: &[Edit]) -> Result<Prepared, PlanFault>
        requires edits { AreEdits (newest self.now.file).head.block
            (newest self.now.file).directory edits.now }
        requires short { new_dir_bytes (newest self.now.file) edits.now < 2 ^ 32 }
        // Which blocks are given, and what each gets.
        ensures planned { IfOk result (λ p. p ≡ planned (newest self.now.file) edits.now) }
        // This may be written.
        ensures sound { IfOk result (IsPlan self.now.limit (newest self.now.file) edits.now) }
        // Once it is written the file reads as the edited streams.
        ensures reads { IsTrue D.tells → IfOk result (λ p. Reads
            (file_after self.now.file (D.seen self.now.device) p) self.now.limit p.image
            (edited edits.now (contents_in (D.seen self.now.device) (newest self.now.file)))) }
        // It is refused exactly where a limit is passed, unless memory runs out.
        ensures fits { IfOk result (λ _. FitsDirectory (newest self.now.file) edits.now
            × (new_blocks (newest self.now.file) edits.now ≤ self.now.limit)) }
        ensures directory { (needed : ℕ)
            → IsErrOf result (PlanFault.Full Which.Directory needed)
            → PassesDirectory (newest self.now.file) edits.now needed }
        ensures blocks { (needed : ℕ) → IsErrOf result (PlanFault.Full Which.Blocks needed)
            → PassesBlocks self.now.limit (newest self.now.file) edits.now needed }
    {
        let image = &self.image;
        let plan = plan(
            alloc,
            &image.head,
            &image.directory,
            &image.free,
            edits,
            self.limit,
        )?;
        Ok(Prepared::new(plan))
    }

    /// Writes what was prepared on its newest image. It takes no memory. In doubt the pending
    /// superblock is written again and synced first. Then come the new blocks, those of the map that
    /// becomes active, a sync, the new superblock and a sync; the first call that fails ends it.
    pub fn write(&mut self, prepared: Prepared) -> Result<(), Failed>
        requires planned { IsPlanned self.old.limit (newest self.old.file) prepared }
        ensures limit { self.new.limit ≡ self.old.limit }
        // A crash at any moment leaves what the file showed, or the new image.
        ensures any_moment { LeavesOnly D.moment D.left_since self.old.device self.new.device
            (ShowsEither self.old.limit self.old.file (D.seen self.old.device) prepared) }
        // A device that does not tell its content leaves nothing.
        ensures told { LeavesOnly D.moment D.left_since self.old.device self.new.device
            (λ _. IsTrue D.tells) }
        ensures done { OnOk result (self.new.file ≡ settled prepared.image) }
        ensures only { OnOk result
            (Only (file_after self.old.file (D.seen self.old.device) prepared)
            (D.may_leave self.new.device)) }
        ensures left { OnErr result (IsLeft D.tells self.old.file (D.seen self.old.device)
            prepared self.new.file (D.seen self.new.device)) }
        ensures cause { HasCause (IsErr result)
            (D.fault_count self.old.device) (D.fault_count self.new.device) }
        ensures loans { D.loans self.new.device ≡ D.loans self.old.device }
    {
        self.settle()?;
        self.put(prepared.into_plan())
    }

    // In doubt the pending superblock again, and a sync.
    fn settle(&mut self) -> Result<(), Failed>
        ensures limit { self.new.limit ≡ self.old.limit }
        ensures any_moment { LeavesOnly D.moment D.left_since self.old.device self.new.device
            (Shows self.old.limit self.old.file (D.seen self.old.device)) }
        ensures told { LeavesOnly D.moment D.left_since self.old.device self.new.device
            (λ _. IsTrue D.tells) }
        ensures done { OnOk result (IsOnNewest D.tells self.old.file (D.seen self.old.device)
            self.new.file (D.seen self.new.device)) }
        ensures unchanged { OnErr result (IsUnchanged D.tells self.old.file
            (D.seen self.old.device) self.new.file (D.seen self.new.device)) }
        ensures seen { IsTrue D.tells → OnOk result (D.seen self.new.device
            ≡ settled_file self.old.file (D.seen self.old.device)) }
        ensures ready { OnOk result (IsSettled self.old.limit (newest self.old.file)
            (D.seen self.new.device) (D.may_leave self.new.device)) }
        ensures cause { HasCause (IsErr result)
            (D.fault_count self.old.device) (D.fault_count self.new.device) }
        ensures loans { D.loans self.new.device ≡ D.loans self.old.device }
    {
        if self.before.is_none() {
            return Ok(());
        }
        turn(&mut self.device, &self.image)?;
        self.before = None;
        Ok(())
    }

    // Writes a plan into a settled file.
    fn put(&mut self, plan: Plan) -> Result<(), Failed>
        requires settled { IsSettledFile self.old.file }
        requires planned { IsPlanned self.old.limit (newest self.old.file) plan }
        ensures limit { self.new.limit ≡ self.old.limit }
        ensures any_moment { (change : Change)
            → CanPut change plan (D.seen self.old.device) (D.may_leave self.old.device)
            → LeavesOnly D.moment D.left_since self.old.device self.new.device
            (IsEither change plan.image) }
        ensures done { OnOk result (self.new.file ≡ settled plan.image) }
        ensures only { OnOk result
            (Only (file_after self.old.file (D.seen self.old.device) plan)
            (D.may_leave self.new.device)) }
        ensures left { OnErr result (IsPut D.tells self.old.file (D.seen self.old.device)
            plan self.new.file (D.seen self.new.device)) }
        ensures cause { HasCause (IsErr result)
            (D.fault_count self.old.device) (D.fault_count self.new.device) }
        ensures loans { D.loans self.new.device ≡ D.loans self.old.device }
    {
        match write_plan(&mut self.device, &plan) {
            Ok(()) => {
                self.image = plan.into_image();
                Ok(())
            }
            Err(State::Settled) => Err(Failed),
            Err(State::Doubt) => {
                self.before = Some(mem::replace(&mut self.image, plan.into_image()));
                Err(Failed)
            }
        }
    }

    /// Plans edits of the newest image that was begun, and writes the plan.
    pub fn commit(&mut self, alloc: Global, edits: &[Edit]) -> Result<(), CommitFault>
        requires edits { AreEdits (newest self.old.file).head.block
            (newest self.old.file).directory edits.now }
        requires short { new_dir_bytes (newest self.old.file) edits.now < 2 ^ 32 }
        ensures limit { self.new.limit ≡ self.old.limit }
        // A crash at any moment leaves what the file showed, or the edited streams.
        ensures any_moment { LeavesOnly D.moment D.left_since self.old.device self.new.device
            (ShowsEither self.old.limit self.old.file (D.seen self.old.device)
            (planned (newest self.old.file) edits.now)) }
        ensures done { OnOk result
            (self.new.file ≡ settled (new_image (newest self.old.file) edits.now)) }
        ensures only { OnOk result (Only
            (file_after self.old.file (D.seen self.old.device)
            (planned (newest self.old.file) edits.now)) (D.may_leave self.new.device)) }
        ensures reads { IsTrue D.tells → OnOk result (Reads (D.seen self.new.device)
            self.old.limit (new_image (newest self.old.file) edits.now)
            (edited edits.now (contents_in (D.seen self.old.device) (newest self.old.file)))) }
        ensures left { IsErrOf result CommitFault.DiskFault
            → IsLeft D.tells self.old.file (D.seen self.old.device)
            (planned (newest self.old.file) edits.now) self.new.file (D.seen self.new.device) }
        // It is refused exactly where a limit is passed, unless memory runs out, and then nothing
        // changes.
        ensures fits { IsBegun result → FitsDirectory (newest self.old.file) edits.now
            × (new_blocks (newest self.old.file) edits.now ≤ self.old.limit) }
        ensures directory { (needed : ℕ) → IsErrOf result (CommitFault.Full DIRECTORY needed)
            → PassesDirectory (newest self.old.file) edits.now needed }
        ensures blocks { (needed : ℕ) → IsErrOf result (CommitFault.Full BLOCKS needed)
            → PassesBlocks self.old.limit (newest self.old.file) edits.now needed }
        ensures refused { ¬ IsBegun result → self.new ≡ self.old }
        ensures cause { HasCause (IsErrOf result CommitFault.DiskFault)
            (D.fault_count self.old.device) (D.fault_count self.new.device) }
        ensures loans { D.loans self.new.device ≡ D.loans self.old.device }
    {
        let _ = &self.device;
        let prepared = self.prepare(alloc, edits)?;
        self.write(prepared)?;
        Ok(())
    }
}
