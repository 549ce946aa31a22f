//! The table's rule, and what each step on it tells.
use crate::history::Historied;
use crate::view::{Place, View};
use atomic_table::{Join, Play, Seat, Shared, Split, Table, TableRule};
use std::alloc::Global;
use std::marker::PhantomData;
use std::snapshot::Snapshot;

/// Threads take turns on the value. The key shows the value as it was at first.
pub struct Queue<V> {
    of: PhantomData<V>,
}

impl<V: Historied> TableRule<Place<V>, View, Snapshot<V>> for Queue<V> {
    ghost use Rattle.turnstile.specs.Orderly.{Orderly};
    ghost use Rattle.turnstile.specs.Views.{first_view};

    ghost holds = { λ key. Orderly V.basis V.entries V.law (V.basis key.value) };

    ghost first = { λ key. first_view (V.basis key.value) };
}

pub type Gate<V> = Shared<Place<V>, View, Snapshot<V>, Queue<V>>;

pub type Walls<V> = Table<Place<V>, View, Snapshot<V>, Queue<V>, Global>;

pub type Chair<V> = Seat<Place<V>, View>;

/// A pass draws a ticket, if no ticket was out as far as it saw.
pub struct Draw;

impl<V> Play<Place<V>, View> for Draw {
    ghost use Rattle.turnstile.specs.Steps.{Draws};

    ghost then = { Draws };
}

/// A pass that waits looks whether it is served.
pub struct Look;

impl<V> Play<Place<V>, View> for Look {
    ghost use Rattle.turnstile.specs.Steps.{Looks};

    ghost then = { Looks };
}

/// A pass sets the bell, before it sleeps or to wake another.
pub struct Ring;

impl<V> Play<Place<V>, View> for Ring {
    ghost use Rattle.turnstile.specs.Steps.{Rings};

    ghost then = { Rings };
}

/// A pass in no turn sees the whole history.
pub struct Front;

impl<V: Historied> Play<Place<V>, View> for Front {
    ghost use Rattle.turnstile.specs.Steps.{Fronts};

    ghost then = { Fronts V.law };
}

/// The pass that is served sees the whole history and takes the value.
pub struct Take;

impl<V: Historied> Play<Place<V>, View> for Take {
    ghost use Rattle.turnstile.specs.Steps.{Takes};

    ghost then = { Takes V.basis V.entries V.law };
}

/// The pass that has the value files one entry.
pub struct File;

impl<V: Historied> Play<Place<V>, View> for File {
    ghost use Rattle.turnstile.specs.Steps.{Files};

    ghost then = { Files V.entries };
}

/// The pass that has the value gives it back.
pub struct Leave;

impl<V> Play<Place<V>, View> for Leave {
    ghost use Rattle.turnstile.specs.Steps.{Leaves};

    ghost then = { Leaves };
}

/// Pass 0 splits off a new pass.
pub struct Fork;

impl Split<View> for Fork {
    ghost use Rattle.turnstile.specs.Views.{after_split, split_off};

    ghost left = { after_split };

    ghost right = { split_off };
}

/// A pass writes a note of what it has seen.
pub struct Write;

impl Split<View> for Write {
    ghost use Rattle.turnstile.specs.Views.{noted};

    ghost left = { λ v. v };

    ghost right = { noted };
}

/// A pass takes in a note.
pub struct Meet;

impl Join<View> for Meet {
    ghost use Rattle.turnstile.specs.Views.{informed, spent};

    ghost both = { informed };

    ghost spent = { spent };
}

/// Pass 0 takes in a pass that has ended.
pub struct Retire;

impl Join<View> for Retire {
    ghost use Rattle.turnstile.specs.Views.{retiring, spent};

    ghost both = { retiring };

    ghost spent = { spent };
}
