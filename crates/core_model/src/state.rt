ghost use Rattle.std.specs.Prelude.{◌≡◌, ◌<◌, ◌↔◌, ◌&&◌, length, IfSome, IsTrue, Some, None, is_none, if◌then◌else◌};
ghost use Rattle.core_model.specs.Steps.{HasStart, next_state, state_after_add, state_after_began, state_after_deed, state_after_ended, count_with, holds_records, is_end, is_first, is_limit_of, is_next, is_open, is_open_number, names_nothing, place_fits, place_of_index, place_of_offset};

use crate::commit::OpenCommit;
use call_journal::{Deed, Limit, TableKind, caller_of, deed_of};
use record_table::FIRST_INDEX;
use srv_edge::{RecordList, Text};
use table_model::{place_of, place_of_name};

/// Where a replay stands: how many types, items and names are there, the last number that began, and the commit
/// under way.
#[derive(Clone, Copy)]
pub(crate) struct ReplayState {
    pub(crate) types: u32,
    pub(crate) items: u32,
    pub(crate) names: usize,
    pub(crate) last: Option<u32>,
    pub(crate) under_way: Option<OpenCommit>,
}

/// Whether the lists have as many types, items and names as there were at first.
pub(crate) fn has_start(
    types: &RecordList,
    items: &RecordList,
    names: &[Text],
    start: (u32, u32, u32),
) -> bool
    ensures { IsTrue result ↔ HasStart
        (record { types = types.now; items = items.now; names = names.now }) start }
{
    start.0 <= types.len() && start.1 <= items.len() && start.2 as usize <= names.len()
}

/// The state behind one word more, where it fits.
pub(crate) fn next_state(
    types: &RecordList,
    items: &RecordList,
    names: &[Text],
    state: ReplayState,
    word: u64,
) -> Option<ReplayState>
    ensures { result ≡ next_state
        (record { types = types.now; items = items.now; names = names.now }) state word }
{
    let caller = caller_of(word);
    match deed_of(word)? {
        Deed::Added { table, at } => state_after_add(types, items, names, state, table, at),
        Deed::Asked { .. } | Deed::Counted => Some(state),
        Deed::NotGiven {
            index,
            space,
            table,
        } => (names_nothing(state, space, index) && holds_records(table)).then_some(state),
        Deed::Full { limit, table, .. } => is_limit_of(table, limit).then_some(state),
        Deed::Began { number } => state_after_began(state, caller, number),
        Deed::Ended { number, .. } => state_after_ended(state, caller, number),
        Deed::Underway { number } => is_open_number(state, number).then_some(state),
    }
}

/// Whether the lists that are there are the final ones.
pub(crate) fn is_end(
    types: &RecordList,
    items: &RecordList,
    names: &[Text],
    state: ReplayState,
) -> bool
    ensures { result ≡ is_end
        (record { types = types.now; items = items.now; names = names.now }) state }
{
    state.types == types.len() && state.items == items.len() && state.names == names.len()
}

// An answered add.
fn state_after_add(
    types: &RecordList,
    items: &RecordList,
    names: &[Text],
    state: ReplayState,
    table: TableKind,
    at: u32,
) -> Option<ReplayState>
    ensures { result ≡ state_after_add
        (record { types = types.now; items = items.now; names = names.now }) state table at }
{
    match table {
        TableKind::Types => Some(ReplayState {
            types: count_with(types, state.types, at)?,
            ..state
        }),
        TableKind::Items => Some(ReplayState {
            items: count_with(items, state.items, at)?,
            ..state
        }),
        TableKind::Names if at == 0 => Some(state),
        TableKind::Names => Some(ReplayState {
            names: names_with(names, state.names, at)?,
            ..state
        }),
    }
}

// How many records are there behind an add that gave this index, where it fits.
fn count_with(list: &RecordList, count: u32, index: u32) -> Option<u32>
    ensures { result ≡ (let place = place_of_index index in
        if place_fits list.now count place then Some (count_with count place) else None) }
{
    if index < FIRST_INDEX {
        return None;
    }
    let place = index - FIRST_INDEX;
    if place > count || !is_first(list, place) {
        return None;
    }
    Some(if place == count { count + 1 } else { count })
}

// Whether a record stands at a place, and equals none before it.
fn is_first(list: &RecordList, place: u32) -> bool
    ensures { result ≡ is_first list.now place }
{
    match list.get(place) {
        Some(record) => place_of(list, record) == Some(place),
        None => false,
    }
}

// How many names are there behind an add that gave this offset, where it fits.
fn names_with(names: &[Text], count: usize, offset: u32) -> Option<usize>
    ensures { result ≡ (let place = place_of_offset 1 names.now offset in
        if place_fits names.now count place then Some (count_with count place) else None) }
{
    let place = place_of_offset(names, offset)?;
    if place > count || !is_first_name(names, place) {
        return None;
    }
    Some(if place == count { count + 1 } else { count })
}

// The place of the name that begins at an offset, but for an empty one.
fn place_of_offset(names: &[Text], offset: u32) -> Option<usize>
    ensures place { result ≡ place_of_offset 1 names.now offset }
    ensures within { IfSome result (λ place. place < length names.now) }
{
    let wanted = u64::from(offset);
    let mut start = 1;
    for (place, name) in names.iter().enumerate() {
        if start > wanted {
            return None;
        }
        if start == wanted {
            return if name.bytes().is_empty() {
                None
            } else {
                Some(place)
            };
        }
        start += name.bytes().len() as u64 + 1;
    }
    None
}

// Whether a name stands at a place, and equals none before it.
fn is_first_name(names: &[Text], place: usize) -> bool
    ensures { result ≡ is_first names.now place }
{
    match names.get(place) {
        Some(name) => place_of_name(names, name.bytes()) == Some(place),
        None => false,
    }
}

// Whether an index names no record yet.
fn names_nothing(state: ReplayState, space: TableKind, index: u32) -> bool
    ensures { result ≡ names_nothing state space index }
{
    match space {
        TableKind::Types => index >= FIRST_INDEX && index - FIRST_INDEX >= state.types,
        TableKind::Items => index >= FIRST_INDEX && index - FIRST_INDEX >= state.items,
        TableKind::Names => false,
    }
}

fn holds_records(table: TableKind) -> bool
    ensures { result ≡ holds_records table }
{
    table != TableKind::Names
}

// Whether a table has such a limit.
fn is_limit_of(table: TableKind, limit: Limit) -> bool
    ensures { result ≡ is_limit_of table limit }
{
    match limit {
        Limit::Records | Limit::Bytes => holds_records(table),
        Limit::Names => !holds_records(table),
    }
}

// A commit began.
fn state_after_began(state: ReplayState, caller: u8, number: u32) -> Option<ReplayState>
    ensures { result ≡ state_after_began state caller number }
{
    if state.under_way.is_some() || !is_next(state.last, number) {
        return None;
    }
    Some(ReplayState {
        last: Some(number),
        under_way: Some(OpenCommit { caller, number }),
        ..state
    })
}

// Whether a number may begin: any but 0 at first, and then the next.
fn is_next(last: Option<u32>, number: u32) -> bool
    ensures { result ≡ is_next last number }
{
    match last {
        Some(last) => u64::from(number) == u64::from(last) + 1,
        None => number != 0,
    }
}

// A commit ended.
fn state_after_ended(state: ReplayState, caller: u8, number: u32) -> Option<ReplayState>
    ensures { result ≡ state_after_ended state caller number }
{
    match state.under_way {
        Some(commit) if commit.caller == caller && commit.number == number => Some(ReplayState {
            under_way: None,
            ..state
        }),
        _ => None,
    }
}

// Whether a commit of this number is under way.
fn is_open_number(state: ReplayState, number: u32) -> bool
    ensures { result ≡ is_open_number state.under_way number }
{
    match state.under_way {
        Some(commit) => commit.number == number,
        None => false,
    }
}
