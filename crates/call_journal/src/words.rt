ghost use Rattle.std.specs.Prelude.{◌≡◌, ◌/◌, ◌^◌, ◌<◌, ◌≤◌};
ghost use Rattle.call_journal.specs.Words.{deed_by, deed_of, full_deed, kind_of, limit_number, limit_of, low_of, middle_of, not_given_deed, number_of, plain_deed, table_of, word_of};

use crate::deed::{Deed, Limit, TableKind};

/// What one caller more, one kind more and one more of bits 32 to 47 add to a word.
const CALLER: u64 = 0x100_0000_0000_0000;

const KIND: u64 = 0x1_0000_0000_0000;

const MIDDLE: u64 = 0x1_0000_0000;

/// The word of a caller's deed. docs/HISTORY.md has its bits.
#[tactic(auto, unfolding(crate::specs::Words::word_of))]
pub fn word_of(caller: u8, deed: Deed) -> u64
    ensures { result ≡ word_of caller deed }
{
    u64::from(caller) * CALLER + kind_of(deed) * KIND + middle_of(deed) * MIDDLE + low_of(deed)
}

/// The deed that a word tells, if it is a word of one. Any caller's is.
#[tactic(auto, unfolding(crate::specs::Words::deed_of))]
pub fn deed_of(word: u64) -> Option<Deed>
    ensures { result ≡ deed_of word }
{
    deed_by(
        word / KIND % 256,
        word / MIDDLE % 65_536,
        (word % MIDDLE) as u32,
    )
}

/// The caller of a word.
pub fn caller_of(word: u64) -> u8
    ensures { result ≡ word / 2 ^ 56 }
{
    (word / CALLER) as u8
}

fn number_of(table: TableKind) -> u64
    ensures number { result ≡ number_of table }
    ensures bound { result ≤ 2 }
{
    match table {
        TableKind::Types => 0,
        TableKind::Items => 1,
        TableKind::Names => 2,
    }
}

fn limit_number(limit: Limit) -> u64
    ensures number { result ≡ limit_number limit }
    ensures bound { result ≤ 3 }
{
    match limit {
        Limit::Records => 1,
        Limit::Bytes => 2,
        Limit::Names => 3,
    }
}

// Bits 48 to 55.
fn kind_of(deed: Deed) -> u64
    ensures kind { result ≡ kind_of deed }
    ensures bound { result ≤ 12 }
{
    match deed {
        Deed::Added { table, .. } => 1 + number_of(table),
        Deed::Asked { table, .. } => 4 + number_of(table),
        Deed::Counted => 7,
        Deed::NotGiven { .. } => 8,
        Deed::Full { .. } => 9,
        Deed::Began { .. } => 10,
        Deed::Ended { .. } => 11,
        Deed::Underway { .. } => 12,
    }
}

// Bits 32 to 47.
fn middle_of(deed: Deed) -> u64
    ensures middle { result ≡ middle_of deed }
    ensures bound { result ≤ 11 }
{
    match deed {
        Deed::NotGiven { space, table, .. } => number_of(space) + 4 * number_of(table),
        Deed::Full { limit, table, .. } => limit_number(limit) + 4 * number_of(table),
        Deed::Ended { acknowledged, .. } => u64::from(acknowledged),
        _ => 0,
    }
}

// Bits 0 to 31.
fn low_of(deed: Deed) -> u64
    ensures low { result ≡ low_of deed }
    ensures bound { result < 2 ^ 32 }
{
    match deed {
        Deed::Added { at, .. } | Deed::Asked { at, .. } => u64::from(at),
        Deed::Counted => 0,
        Deed::NotGiven { index, .. } => u64::from(index),
        Deed::Full { length, .. } => u64::from(length),
        Deed::Began { number } | Deed::Ended { number, .. } | Deed::Underway { number } => {
            u64::from(number)
        }
    }
}

fn table_of(n: u64) -> Option<TableKind>
    ensures { result ≡ table_of n }
{
    match n {
        0 => Some(TableKind::Types),
        1 => Some(TableKind::Items),
        2 => Some(TableKind::Names),
        _ => None,
    }
}

fn limit_of(n: u64) -> Option<Limit>
    ensures { result ≡ limit_of n }
{
    match n {
        1 => Some(Limit::Records),
        2 => Some(Limit::Bytes),
        3 => Some(Limit::Names),
        _ => None,
    }
}

fn deed_by(kind: u64, middle: u64, low: u32) -> Option<Deed>
    ensures { result ≡ deed_by kind middle low }
{
    match kind {
        8 => not_given_deed(low, table_of(middle % 4), table_of(middle / 4)),
        9 => full_deed(low, limit_of(middle % 4), table_of(middle / 4)),
        11 if middle == 0 => Some(Deed::Ended {
            number: low,
            acknowledged: false,
        }),
        11 if middle == 1 => Some(Deed::Ended {
            number: low,
            acknowledged: true,
        }),
        _ if middle != 0 => None,
        _ => plain_deed(kind, low),
    }
}

fn not_given_deed(index: u32, space: Option<TableKind>, table: Option<TableKind>) -> Option<Deed>
    ensures { result ≡ not_given_deed index space table }
{
    Some(Deed::NotGiven {
        index,
        space: space?,
        table: table?,
    })
}

fn full_deed(length: u32, limit: Option<Limit>, table: Option<TableKind>) -> Option<Deed>
    ensures { result ≡ full_deed length limit table }
{
    Some(Deed::Full {
        length,
        limit: limit?,
        table: table?,
    })
}

// The deed of a kind that has nothing in bits 32 to 47.
fn plain_deed(kind: u64, low: u32) -> Option<Deed>
    ensures { result ≡ plain_deed kind low }
{
    match kind {
        1..=3 => Some(Deed::Added {
            table: table_of(kind - 1)?,
            at: low,
        }),
        4..=6 => Some(Deed::Asked {
            table: table_of(kind - 4)?,
            at: low,
        }),
        7 if low == 0 => Some(Deed::Counted),
        10 => Some(Deed::Began { number: low }),
        12 => Some(Deed::Underway { number: low }),
        _ => None,
    }
}
