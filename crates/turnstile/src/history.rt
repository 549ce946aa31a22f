//! What a value that is shared in turns has to tell of itself.
use std::collections::LinkedList;

/// One entry of a history: a journal word and the bytes that its call brought.
/// The word's highest byte is the number of the caller.
#[derive(Drop)]
pub struct Entry {
    pub word: u64,
    pub brought: LinkedList<u8>,
}

/// What a history starts from: numbers, and three lists of byte lists.
#[derive(Drop)]
pub struct Basis {
    pub numbers: LinkedList<u64>,
    pub types: LinkedList<LinkedList<u8>>,
    pub items: LinkedList<LinkedList<u8>>,
    pub names: LinkedList<LinkedList<u8>>,
}

/// A value with a basis and a history, which keep a law of its own at every moment.
pub trait Historied {
    ghost use Rattle.std.specs.Prelude.{◌≡◌, List, length};
    ghost use Rattle.turnstile.specs.declared.history.Basis.{Basis};
    ghost use Rattle.turnstile.specs.declared.history.Entry.{Entry};

    /// What the history starts from.
    ghost basis: { Self → Basis };

    /// The history so far.
    ghost entries: { Self → List Entry };

    /// Which histories may stand on which basis.
    ghost law: { Basis → List Entry → Type 0 };

    /// The number of entries. So a history has fewer than 2^32 of them.
    fn filed(&self) -> u32
        ensures count { result ≡ length (entries self.now) }
        ensures lawful { law (basis self.now) (entries self.now) };
}
