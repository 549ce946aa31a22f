ghost use Rattle.std.specs.Prelude.{◌≡◌, ◌≤◌, ◌<◌, ◌+◌, ◌^◌, ◌↔◌, [], ◌∷◌, IfOk, IsOk, IsTrue, MatchOption, OnErr, OnOk, length, slice_get, slice_index};
ghost use Rattle.chain_index.specs.Chains.{bucket_in, chain_behind, chain_of, heads_for, linked};

use crate::links::{FIRST_HEADS, heads_for, link_last};
use std::alloc::{AllocError, Global};
use std::marker::Model;

/// The records of a table in chains, one for each bucket of their hashes. The records of a chain
/// fall.
#[derive(Drop)]
pub struct Chains {
    heads: Vec<Option<u32>>,
    hashes: Vec<u32>,
    nexts: Vec<Option<u32>>,
    // how many records there is memory for
    room: u32,
}

impl Model for Chains {
    ghost use Rattle.std.specs.Prelude.{◌≤◌, ◌-◌, length, vec_capacity};
    ghost use Rattle.chain_index.specs.Chains.{AreChains, Chained, heads_for};

    ghost Value = { Chained };

    ghost view = { λ c. record
        { hashes = c.hashes.items; spare = c.room - length c.hashes.items } };

    ghost invariant = { λ c. AreChains c.hashes.items c.heads.items c.nexts.items c.room
        × (c.room ≤ vec_capacity c.hashes) × (c.room ≤ vec_capacity c.nexts)
        × (heads_for c.room ≤ vec_capacity c.heads) };
}

impl Chains {
    /// No records. It takes the memory of the first heads.
    pub fn new(alloc: Global) -> Result<Chains, AllocError>
        ensures { IfOk result (λ c. c ≡ record { hashes = []; spare = 0 }) }
    {
        let mut heads = Vec::new(alloc);
        heads.resize(FIRST_HEADS as usize, None)?;
        Ok(Chains {
            heads,
            hashes: Vec::new(alloc),
            nexts: Vec::new(alloc),
            room: 0,
        })
    }

    /// How many records can be linked before memory is wanted.
    pub fn spare(&self) -> u32
        ensures { result ≡ self.now.spare }
    {
        self.room - self.hashes.len() as u32
    }

    /// Takes the memory for so many records more, and for the heads that they ask for.
    pub fn reserve(&mut self, n: u32) -> Result<(), AllocError>
        requires { length self.old.hashes + n < 2 ^ 32 }
        ensures same { self.new.hashes ≡ self.old.hashes }
        ensures grows { self.old.spare ≤ self.new.spare }
        ensures ok { OnOk result (n ≤ self.new.spare) }
        ensures enough { n ≤ self.old.spare → IsOk result }
        ensures err { OnErr result (self.new ≡ self.old) }
    {
        if n <= self.spare() {
            return Ok(());
        }
        let room = self.hashes.len() as u32 + n;
        self.hashes.reserve(n as usize)?;
        self.nexts.reserve(n as usize)?;
        let heads = heads_for(room) as usize;
        self.heads.reserve(heads - self.heads.len())?;
        self.room = room;
        Ok(())
    }

    /// Adds a record with this hash. It takes no memory.
    pub fn link(&mut self, hash: u32)
        requires { 0 < self.old.spare }
        ensures { self.new ≡ linked self.old hash }
    {
        let number = self.hashes.len() as u32;
        self.hashes.push(hash).unwrap();
        self.nexts.push(None).unwrap();
        link_last(&self.hashes, &mut self.heads, &mut self.nexts, number);
    }

    /// The last record of the hash's bucket, which its chain begins with.
    pub fn head(&self, hash: u32) -> Option<u32>
        ensures first { result
            ≡ slice_get (chain_of self.now.hashes (bucket_in self.now.hashes hash)) 0 }
        ensures whole { let chain = chain_of self.now.hashes (bucket_in self.now.hashes hash) in
            MatchOption result (chain ≡ []) (λ k. chain ≡ k ∷ chain_behind self.now.hashes k) }
    {
        self.heads[hash as usize % self.heads.len()]
    }

    /// The record behind a record in its chain.
    pub fn next(&self, number: u32) -> Option<u32>
        requires { number < length self.now.hashes }
        ensures first { result ≡ slice_get (chain_behind self.now.hashes number) 0 }
        ensures whole { let chain = chain_behind self.now.hashes number in
            MatchOption result (chain ≡ []) (λ k. chain ≡ k ∷ chain_behind self.now.hashes k) }
    {
        self.nexts[number as usize]
    }

    /// The hash of a record.
    pub fn hash_of(&self, number: u32) -> u32
        requires { number < length self.now.hashes }
        ensures { result ≡ slice_index self.now.hashes number }
    {
        self.hashes[number as usize]
    }

    /// The hashes of the records, in their order.
    pub fn hashes(&self) -> &[u32]
        ensures { result.now ≡ self.now.hashes }
    {
        &self.hashes
    }

    /// How many heads there are.
    pub fn heads(&self) -> u32
        ensures { result ≡ heads_for (length self.now.hashes) }
    {
        self.heads.len() as u32
    }

    /// How many records there are.
    pub fn len(&self) -> u32
        ensures { result ≡ length self.now.hashes }
    {
        self.hashes.len() as u32
    }

    pub fn is_empty(&self) -> bool
        ensures { IsTrue result ↔ (self.now.hashes ≡ []) }
    {
        self.hashes.is_empty()
    }
}
