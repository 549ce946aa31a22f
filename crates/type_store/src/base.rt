//! How far the streams reach of the image on which a commit builds.

ghost use Rattle.std.specs.Prelude.{◌≡◌, ◌≤◌, ◌^◌, [], false, true, length, IfOk};
ghost use Rattle.srv_edge.specs.Records.{joined};
ghost use Rattle.type_store.specs.Commit.{extent_of, record_extent};
ghost use Rattle.type_store.specs.Committed.{BuildsOn, RecordsGoOn};

use crate::cut::CutRef;
use srv_edge::RecordList;
use std::alloc::{AllocError, Global};
use std::marker::Model;
use tpi_stream::extend_offsets;

/// How many records a stream has, their bytes, and the text of their index offsets, which is kept so
/// that no old record is walked again.
#[derive(Drop)]
pub(crate) struct RecordBase {
    count: u32,
    bytes: u32,
    offsets: Vec<u8>,
}

impl Model for RecordBase {
    ghost use Rattle.type_store.specs.Commit.{RecordExtent};

    ghost Value = { RecordExtent };

    ghost view = { λ b. record { count = b.count; bytes = b.bytes; offsets = b.offsets.items } };
}

impl RecordBase {
    /// Of no records.
    fn empty(alloc: Global) -> RecordBase
        ensures { result ≡ record_extent [] }
    {
        RecordBase {
            count: 0,
            bytes: 0,
            offsets: Vec::new(alloc),
        }
    }

    /// Of records that go on from these. Only the new ones are walked.
    fn after(&self, alloc: Global, records: &RecordList) -> Result<RecordBase, AllocError>
        requires few { length records.now ≤ 2 ^ 23 }
        requires base { RecordsGoOn self.now records.now }
        ensures { IfOk result (λ b. b ≡ record_extent records.now) }
    {
        let mut offsets = self.offsets.as_slice().to_vec(alloc)?;
        extend_offsets(&mut offsets, records, self.count, self.bytes)?;
        Ok(RecordBase {
            count: records.len(),
            bytes: records.joined().len() as u32,
            offsets,
        })
    }

    pub(crate) fn count(&self) -> u32
        ensures { result ≡ self.now.count }
    {
        self.count
    }

    pub(crate) fn bytes(&self) -> u32
        ensures { result ≡ self.now.bytes }
    {
        self.bytes
    }

    /// The text of the index offsets.
    pub(crate) fn offsets(&self) -> &[u8]
        ensures { result.now ≡ self.now.offsets }
    {
        &self.offsets
    }
}

/// The streams of the image. It is fresh while it is as it was opened or created.
#[derive(Drop)]
pub(crate) struct Base {
    fresh: bool,
    types: RecordBase,
    items: RecordBase,
    name_bytes: u32,
}

impl Model for Base {
    ghost use Rattle.type_store.specs.Commit.{Extent};

    ghost Value = { Extent };

    ghost view = { λ b. record
        { fresh = b.fresh; types = b.types; items = b.items; name_bytes = b.name_bytes } };
}

impl Base {
    /// Of an image that was opened or created with these tables.
    pub(crate) fn opened(alloc: Global, cut: &CutRef) -> Result<Base, AllocError>
        ensures { IfOk result (λ b. b ≡ extent_of true cut.now.tables) }
    {
        Ok(Base {
            fresh: true,
            types: RecordBase::empty(alloc).after(alloc, cut.types().records())?,
            items: RecordBase::empty(alloc).after(alloc, cut.items().records())?,
            name_bytes: cut.names().bytes(),
        })
    }

    /// Of the image that a commit of tables leaves.
    pub(crate) fn after(&self, alloc: Global, cut: &CutRef) -> Result<Base, AllocError>
        requires { BuildsOn self.now cut.now.tables }
        ensures { IfOk result (λ b. b ≡ extent_of false cut.now.tables) }
    {
        Ok(Base {
            fresh: false,
            types: self.types.after(alloc, cut.types().records())?,
            items: self.items.after(alloc, cut.items().records())?,
            name_bytes: cut.names().bytes(),
        })
    }

    pub(crate) fn is_fresh(&self) -> bool
        ensures { result ≡ self.now.fresh }
    {
        self.fresh
    }

    pub(crate) fn types(&self) -> &RecordBase
        ensures { result.now ≡ self.now.types }
    {
        &self.types
    }

    pub(crate) fn items(&self) -> &RecordBase
        ensures { result.now ≡ self.now.items }
    {
        &self.items
    }

    /// The bytes of the strings of the names, with the NUL of the empty one.
    pub(crate) fn name_bytes(&self) -> u32
        ensures { result ≡ self.now.name_bytes }
    {
        self.name_bytes
    }
}
