//! What each seat at the table knows, and what the table's one slot has. Of the views no value is
//! made: they exist in proofs alone.
use crate::history::{Basis, Entry};
use std::collections::LinkedList;
use std::snapshot::Snapshot;

/// Whose view it is.
pub enum Role {
    /// The pass of this number.
    Caller(u64),
    Noted,
    /// A note that was met, or a pass that was retired.
    Spent,
}

/// Where a pass stands on its way through a turn, with its ticket. These tickets do not wrap.
pub enum Stage {
    Idle,
    Waiting(u64),
    Served(u64),
    Loaded(u64),
}

/// A pass that was retired: its number and its calls.
pub struct Ended {
    pub number: u64,
    pub calls: LinkedList<Entry>,
}

/// What a pass or a note knows.
pub struct View {
    pub role: Role,
    pub basis: Basis,
    pub seen: LinkedList<Entry>,
    /// What it had seen itself before it last took in another view.
    pub was: LinkedList<Entry>,
    /// What that other view had seen.
    pub told: LinkedList<Entry>,
    /// The calls of its own number.
    pub mine: LinkedList<Entry>,
    pub stage: Stage,
    /// Of pass 0: how many passes there have been, itself with them.
    pub made: u64,
    /// Of pass 0: the passes that it retired.
    pub ended: LinkedList<Ended>,
}

/// The slot: the value at home, or nothing while a turn has it. What is shown is for proofs alone.
pub enum Place<V> {
    Empty,
    Full(V),
    Shown(Snapshot<V>),
}

impl<V> Place<V> {
    ghost use Rattle.std.specs.Prelude.{◌≡◌};
    ghost use Rattle.turnstile.specs.declared.view.Place.TheVariants.{Full};
    ghost use Rattle.turnstile.specs.Passes.{HasNoValue};

    pub fn into_value(self) -> V
        requires { (x : V) × (self ≡ Full x) }
        ensures { self ≡ Full result }
    {
        match self {
            Place::Full(value) => value,
            Place::Empty | Place::Shown(_) => unreachable!(),
        }
    }

    pub fn let_go(self)
        requires { HasNoValue self }
    {
        match self {
            Place::Full(_value) => unreachable!(),
            Place::Empty | Place::Shown(_) => (),
        }
    }
}
