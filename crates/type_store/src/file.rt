//! A PDB file that is open: its store, and the commits that a crash may leave.

ghost use Rattle.std.specs.Prelude.{◌≡◌, ◌≢◌, ◌<◌, ◌+◌, ◌-◌, ◌^◌, ℕ, [], true, IsTrue, IfOk, IfErr, IsErrAnd, IsErrOf, Ok};
ghost use Rattle.srv_edge.specs.Count.{HasCause};
ghost use Rattle.srv_edge.specs.Disk.{Only};
ghost use Rattle.srv_edge.specs.Reading.{OnlyReads};
ghost use Rattle.msf_blocks.specs.Blocks.{IsBlockSize};
ghost use Rattle.msf_image.specs.Packed.{packed_file, packed_image};
ghost use Rattle.table_model.specs.Tables.{empty_tables};
ghost use Rattle.type_store.specs.NewFile.{new_contents};
ghost use Rattle.stream_directory.specs.Directory.{stream_at};
ghost use Rattle.msf_image.specs.declared.fault.DamageKind.{DamageKind};
ghost use Rattle.msf_image.specs.Reads.{IsWhole, content_of, read_file};
ghost use Rattle.msf_image.specs.Spelled.{IsSpelled};
ghost use Rattle.table_model.specs.Bounds.{bounds_of};
ghost use Rattle.table_model.specs.File.{newest_cut, settled};
ghost use Rattle.type_store.specs.Commit.{extent_of};
ghost use Rattle.type_store.specs.Commits.{contents_of};
ghost use Rattle.type_store.specs.Committed.{HoldsTables};
ghost use Rattle.type_store.specs.Files.{IsShown, cut_of};
ghost use Rattle.type_store.specs.Opening.{AreStreams};
ghost use Rattle.type_store.specs.Shape.{shape_of, sizes_in};
ghost use Rattle.type_store.specs.Views.{tables_in};

use crate::begun::CommitCut;
use crate::commit::Pending;
use crate::commits::held_tables_can_be_committed;
use crate::new_file::new_streams;
use crate::open::{Streams, read_streams};
use crate::tables::{KeptNumbers, Tables};
use committer::Store;
use msf_image::{Image, OpenFault};
use srv_edge::{Device, Limits};
use std::alloc::Global;
use std::hash::RandomState;
use std::marker::Model;
use std::snapshot::Snapshot;

/// What a file was when it was opened or created. What only clauses read of it takes no memory.
#[derive(Drop)]
pub(crate) struct Origin<D: Device> {
    pub limits: Limits,
    pub kept: KeptNumbers,
    /// The PDB stream. Commits change its age alone.
    pub info: Vec<u8>,
    pub number: u32,
    pub tables: Snapshot<Tables>,
    pub store: Snapshot<Store<D>>,
    pub image: Snapshot<Image>,
}

/// A PDB file over a device. A crash leaves one commit of it, or in doubt one of two: the newest
/// that has begun to come to the file, and the one before.
#[derive(Drop)]
pub struct PdbFile<D: Device> {
    pub(crate) store: Store<D>,
    pub(crate) origin: Origin<D>,
    pub(crate) newest: CommitCut,
    // in doubt the commit before the newest
    pub(crate) before: Option<CommitCut>,
    // the last number that a commit took
    pub(crate) last: u32,
    // the commit that was prepared last, and was not written since
    pub(crate) ready: Option<Snapshot<Pending>>,
}

impl<D: Device> Model for PdbFile<D> {
    ghost use Rattle.committer.specs.Stored as stored;
    ghost use Rattle.table_model.specs.Bounds.{bounds_of};
    ghost use Rattle.type_store.specs.Files.{FileView, IsFile};
    ghost use Rattle.type_store.specs.Inside.{cuts_of, origin_of, ready_of};

    ghost Value = { FileView D };

    ghost view = { λ f. record {
      device = f.store.device;
      opened = (origin_of D.seen f.origin).opened;
      bounds = bounds_of f.origin.limits;
      shape = (origin_of D.seen f.origin).shape;
      image = stored.newest f.store.file;
      fresh = f.newest.fresh;
      file = cuts_of f.before f.newest;
      last = f.last;
      ready = ready_of f.ready;
    } };

    ghost invariant = { λ f. IsFile D.tells D.seen (origin_of D.seen f.origin) f.store
        f.newest.fresh (cuts_of f.before f.newest) f.last (ready_of f.ready) };
}

impl<D: Device> PdbFile<D> {
    ghost use Rattle.committer.specs.Stored.{IsSettledFile, newest};
    ghost use Rattle.type_store.specs.Opened.{HasShape, IsOpened, TellsOpened, device_in};

    /// Opens the file of a device and reads its tables, each stream once; or hands the device back. A
    /// sync comes first, so that nothing is pending. The keys are those by which names are found in
    /// memory.
    pub fn open(
        alloc: Global,
        keys: RandomState,
        device: D,
        limits: Limits,
    ) -> Result<(PdbFile<D>, Tables), (OpenFault, D)>
        // The tables are those of the commit that the file holds, or the damage is its first.
        ensures told { IsTrue D.tells → TellsOpened (bounds_of limits) (D.seen device) result }
        ensures opened { IfOk result (λ r. IsOpened (bounds_of limits) (D.seen device) r.0
            (tables_in r.1)) }
        ensures shape { IsTrue D.tells
            → IfOk result (λ r. HasShape (bounds_of limits) (D.seen device) r.0.shape) }
        ensures shown { IfOk result (λ r. IsShown D.may_leave r.0) }
        ensures only_reads { OnlyReads D.Device device (device_in result) }
        ensures disk_fault { HasCause (IsErrAnd result (λ refused. refused.0 ≡ OpenFault.DiskFault))
            (D.fault_count device) (D.fault_count (device_in result)) }
    {
        let mut store = Store::open(alloc, device, limits.blocks)?;
        match read_streams(alloc, keys, &mut store, limits) {
            Ok(streams) => Ok(PdbFile::as_opened(store, streams, limits)),
            Err(fault) => Err((fault, store.close())),
        }
    }

    /// Makes a new file on an empty device, with the age 1 and empty tables; or hands the device back.
    /// The keys are those by which names are found in memory. docs/FORMAT.md has the streams of a new
    /// file.
    pub fn create(
        alloc: Global,
        keys: RandomState,
        device: D,
        block: u32,
        guid: [u8; 16],
        signature: u32,
        limits: Limits,
    ) -> Result<(PdbFile<D>, Tables), (OpenFault, D)>
        requires block { IsBlockSize block }
        requires empty { IsTrue D.tells → D.seen device ≡ [] }
        ensures opened { IfOk result (λ r. IsOpened (bounds_of limits) (D.seen r.0.device) r.0
            (tables_in r.1)) }
        ensures cut { IfOk result (λ r. newest_cut r.0.file ≡ cut_of 1 (empty_tables limits)) }
        ensures image { IfOk result (λ r. r.0.image ≡ packed_image block 0
            (new_contents guid signature)) }
        // The only image is the packed file of the new streams.
        ensures only { IfOk result (λ r. Only (packed_file block 0 (new_contents guid signature))
            (D.may_leave r.0.device)) }
        ensures shown { IfOk result (λ r. IsShown D.may_leave r.0) }
        ensures no_damage { (kind : DamageKind) (place : ℕ) → IfErr result
            (λ refused. refused.0 ≢ OpenFault.Damage kind place) }
        // Memory is taken before the first call of the device.
        ensures no_memory { IfErr result
            (λ refused. refused.0 ≡ OpenFault.OutOfMemory → refused.1 ≡ device) }
        ensures disk_fault { HasCause (IsErrAnd result (λ refused. refused.0 ≡ OpenFault.DiskFault))
            (D.fault_count device) (D.fault_count (device_in result)) }
        ensures loans { D.loans (device_in result) ≡ D.loans device }
    {
        // What the streams hold can be committed to.
        held_tables_can_be_committed();
        let Ok((streams, texts)) = new_streams(alloc, keys, guid, signature, limits) else {
            return Err((OpenFault::OutOfMemory, device));
        };
        let store = Store::create(alloc, device, block, &texts, limits.blocks)?;
        Ok(PdbFile::as_opened(store, streams, limits))
    }

    // The file over a store that was just opened, with what its streams hold.
    fn as_opened(store: Store<D>, streams: Streams, limits: Limits) -> (PdbFile<D>, Tables)
        requires settled { IsSettledFile store.file }
        requires limit { store.limit ≡ limits.blocks }
        requires read { IsTrue D.tells
            → read_file (D.seen store.device) limits.blocks ≡ Ok (newest store.file) }
        requires holds { IsTrue D.tells → HoldsTables (bounds_of limits) streams.kept
            streams.info.items streams.age (tables_in streams.tables)
            (contents_of (D.seen store.device) (newest store.file)) }
        requires spelled { IsSpelled (newest store.file).head (newest store.file).directory }
        requires base { streams.base ≡ extent_of true (tables_in streams.tables) }
        requires streams { AreStreams (bounds_of limits) (newest store.file).directory
            streams.kept streams.info.items streams.age (tables_in streams.tables) }
        ensures opened { IsOpened (bounds_of limits) (D.seen store.device) result.0
            (tables_in result.1) }
        ensures cut { newest_cut result.0.file
            ≡ cut_of streams.age (tables_in streams.tables) }
        ensures image { result.0.image ≡ newest store.file }
        ensures shape { result.0.shape ≡ shape_of (newest store.file).head.block
            (newest store.file).head.blocks (sizes_in (newest store.file).directory)
            streams.kept }
        ensures device { result.0.device ≡ store.device }
        ensures shown { IsShown D.may_leave result.0 }
    {
        let number = streams.age;
        let opened = Snapshot::of(&store);
        let image = Snapshot::of(store.image());
        let newest = CommitCut::new(number, Snapshot::of(&streams.tables), streams.base);
        let origin = Origin {
            limits,
            kept: streams.kept,
            info: streams.info,
            number,
            tables: Snapshot::of(&streams.tables),
            store: opened,
            image,
        };
        let file = PdbFile {
            store,
            origin,
            newest,
            before: None,
            last: number,
            ready: None,
        };
        let _age = file.age();
        (file, streams.tables)
    }

    /// The newest image that has begun to come to the file.
    pub fn image(&self) -> &Image
        ensures image { result.now ≡ self.now.image }
        ensures whole { IsWhole self.now.image }
    {
        self.store.image()
    }

    /// The content of a stream, by its number, of a file that is not in doubt. An absent stream, one
    /// that is not there, and stream 0 give no bytes.
    pub fn read_stream(&mut self, alloc: Global, stream: u32) -> Result<Vec<u8>, OpenFault>
        requires settled { self.old.file ≡ settled (newest_cut self.old.file) }
        ensures content { IsTrue D.tells → IfOk result (λ bytes. bytes.items
            ≡ content_of (D.seen self.old.device) self.old.image.head
            (stream_at self.old.image.directory stream)) }
        ensures no_damage { (kind : DamageKind) (place : ℕ)
            → ¬ IsErrOf result (OpenFault.Damage kind place) }
        ensures file { self.new ≡ record self.old { device = self.new.device } }
        ensures disk_fault { HasCause (IsErrOf result OpenFault.DiskFault)
            (D.fault_count self.old.device) (D.fault_count self.new.device) }
        ensures only_reads { OnlyReads D.Device self.old.device self.new.device }
    {
        self.store.read_stream(alloc, stream)
    }

    /// The age of the newest image that has begun to come to the file: the number of its commit.
    pub fn age(&self) -> u32
        ensures age { result ≡ (newest_cut self.now.file).number }
        // What a crash leaves of the file.
        ensures shown { IsShown D.may_leave self.now }
    {
        let _image = self.store.image();
        self.newest.number()
    }

    /// The number that the next commit takes, or 0 where none is left.
    pub fn next(&self) -> u32
        ensures some { self.now.last < 2 ^ 32 - 1 → result ≡ self.now.last + 1 }
        ensures none { self.now.last ≡ 2 ^ 32 - 1 → result ≡ 0 }
    {
        self.last.checked_add(1).unwrap_or(0)
    }

    /// The numbers of the hash streams of types and of items.
    pub fn hash_streams(&self) -> (u16, u16)
        ensures { result ≡ (self.now.shape.type_hashes, self.now.shape.item_hashes) }
    {
        (
            self.origin.kept.types.hash_stream,
            self.origin.kept.items.hash_stream,
        )
    }

    /// The number of the stream of names.
    pub fn names_stream(&self) -> u32
        ensures { result ≡ self.now.shape.names_stream }
    {
        self.origin.kept.names_stream
    }

    /// How often the device has failed. This is no call of the device.
    pub fn faults(&self) -> u64
        ensures { result ≡ D.fault_count self.now.device }
    {
        self.store.faults()
    }

    /// Hands the device back.
    pub fn close(self) -> D
        ensures device { result ≡ self.device }
        ensures shown { IsShown D.may_leave self }
    {
        let _image = self.store.image();
        self.store.close()
    }
}
