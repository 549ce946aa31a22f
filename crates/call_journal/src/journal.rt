ghost use Rattle.std.specs.Prelude.{◌≡◌, ◌≤◌, ◌<◌, ◌+◌, ◌^◌, ◌↔◌, ◌++◌, ◌∷◌, [], All, length, min, slice_get, vec_len, IsOk, IsTrue, OnErr, OnOk};
ghost use Rattle.std.specs.Vec.{vec_capacity};
ghost use Rattle.call_journal.specs.Journal.{AreInOrder, IsFull, spare_in, words_in};

use std::alloc::{AllocError, Global};
use std::marker::Model;
use std::mem;

/// How many words a page holds.
pub const PAGE_WORDS: usize = 1024;

// How many pages there may be, so that their words are fewer than 2^32.
const MOST_PAGES: usize = u32::MAX as usize / PAGE_WORDS;

/// A journal of words, in pages: growing moves no word that is there. Contracts see its words and its spare:
/// for how many more there is room. Both together are fewer than 2^32.
#[derive(Drop)]
pub struct Journal {
    alloc: Global,
    full: Vec<Vec<u64>>,
    page: Vec<u64>,
    blank: Vec<Vec<u64>>,
}

impl Model for Journal {
    ghost use Rattle.std.specs.Prelude.{◌++◌};
    ghost use Rattle.call_journal.specs.Journal.{AreInOrder, Log, spare_in, words_in};

    ghost Value = { Log };

    ghost view = { λ j. record {
      words = words_in j.full.items ++ j.page.items;
      spare = spare_in j.page j.blank;
    } };

    ghost invariant = { λ j. AreInOrder j.full j.page j.blank };
}

impl Journal {
    /// An empty journal. It takes no memory.
    pub fn new(alloc: Global) -> Journal
        ensures words { result.words ≡ [] }
        ensures spare { result.spare ≡ 0 }
    {
        Journal {
            alloc,
            full: Vec::new(alloc),
            page: Vec::new(alloc),
            blank: Vec::new(alloc),
        }
    }

    /// Makes room for so many words, page by page. Where memory is wanted, the pages that it got stay. There is none
    /// for a page that would bring the words and the room for more to 2^32.
    pub fn reserve(&mut self, n: u32) -> Result<(), AllocError>
        ensures words { self.new.words ≡ self.old.words }
        ensures spare { self.old.spare ≤ self.new.spare }
        ensures ok { OnOk result (n ≤ self.new.spare) }
        ensures ready { n ≤ self.old.spare → IsOk result }
    {
        while self.room() < n as usize {
            self.add_page()?;
        }
        Ok(())
    }

    // Makes room for a page more.
    fn add_page(&mut self) -> Result<(), AllocError>
        ensures words { self.new.words ≡ self.old.words }
        ensures ok { OnOk result (self.new.spare ≡ self.old.spare + 1024) }
        ensures err { OnErr result (self.new.spare ≡ self.old.spare) }
    {
        if self.full.len() + self.blank.len() + 2 > MOST_PAGES {
            return Err(AllocError);
        }
        let page = Vec::with_capacity(self.alloc, PAGE_WORDS)?;
        if self.page.capacity() == 0 {
            self.page = page;
            return Ok(());
        }
        self.full.reserve(self.blank.len() + 1)?;
        self.blank.push(page)?;
        Ok(())
    }

    /// Appends a word. It takes no memory and cannot fail.
    pub fn push(&mut self, word: u64)
        requires { 0 < self.old.spare }
        ensures words { self.new.words ≡ self.old.words ++ word ∷ [] }
        ensures spare { self.new.spare + 1 ≡ self.old.spare }
    {
        turn_to_room(&mut self.full, &mut self.page, &mut self.blank);
        self.page.push(word).unwrap();
    }

    /// For how many words more there is room.
    pub fn spare(&self) -> u32
        ensures { result ≡ self.now.spare }
    {
        self.room() as u32
    }

    // For how many words more there is room.
    fn room(&self) -> usize
        ensures spare { result ≡ self.now.spare }
        ensures few { result < 2 ^ 32 }
    {
        self.page.capacity().min(PAGE_WORDS) - self.page.len() + PAGE_WORDS * self.blank.len()
    }

    /// How many words there are.
    pub fn len(&self) -> u32
        ensures count { result ≡ length self.now.words }
        ensures few { length self.now.words + self.now.spare < 2 ^ 32 }
    {
        (PAGE_WORDS * self.full.len() + self.page.len()) as u32
    }

    pub fn is_empty(&self) -> bool
        ensures { IsTrue result ↔ (self.now.words ≡ []) }
    {
        self.len() == 0
    }

    /// The word at a place. There is none exactly where nothing stands there.
    pub fn entry(&self, i: u32) -> Option<u64>
        ensures { result ≡ slice_get self.now.words i }
    {
        word_at(&self.full, &self.page, i as usize)
    }
}

// Puts a page that is full among the full ones, and takes a blank one in its place.
fn turn_to_room(full: &mut Vec<Vec<u64>>, page: &mut Vec<u64>, blank: &mut Vec<Vec<u64>>)
    requires order { AreInOrder full.old page.old blank.old }
    requires spare { 0 < spare_in page.old blank.old }
    ensures order { AreInOrder full.new page.new blank.new }
    ensures room { vec_len page.new < min (vec_capacity page.new) 1024 }
    ensures words { words_in full.new.items ++ page.new.items
        ≡ words_in full.old.items ++ page.old.items }
    ensures spare { spare_in page.new blank.new ≡ spare_in page.old blank.old }
{
    if page.len() < page.capacity().min(PAGE_WORDS) {
        return;
    }
    let next = blank.pop().unwrap();
    let filled = mem::replace(page, next);
    full.push(filled).unwrap();
}

// The word at a place of full pages and one behind them.
fn word_at(full: &[Vec<u64>], page: &[u64], i: usize) -> Option<u64>
    requires { All IsFull full.now }
    ensures { result ≡ slice_get (words_in full.now ++ page.now) i }
{
    match full.get(i / PAGE_WORDS) {
        Some(words) => words.get(i % PAGE_WORDS).copied(),
        None => page.get(i - PAGE_WORDS * full.len()).copied(),
    }
}
