//! A value that keeps a vector of words, in turns of one thread and of two.
ghost use Rattle.std.specs.Prelude.{◌≡◌, ℕ, ◌+◌, ◌*◌, ◌/◌, ◌<◌, ◌^◌, true, [], ◌∷◌, ◌++◌, OnOk, OnErr, IfOk, length};
ghost use Rattle.turnstile.specs.Passes.{IsIdleAt, IsSamePass, one_more};
ghost use denote.Param.Send.{IsSync};

use crate::{Historied, Note, Pass, Turnstile};
use std::alloc::{AllocError, Global};
use std::sync::Wait;
use std::test::Fail;
use std::thread::{Threads, join};

#[derive(Drop)]
struct Words {
    words: Vec<u64>,
    ghost few: { length words.items < 2 ^ 32 },
}

impl Historied for Words {
    ghost use Rattle.std.specs.Prelude.{◌≡◌, [], map, All};

    ghost basis = { λ _. record { numbers = []; types = []; items = []; names = [] } };

    ghost entries = { λ v. map (λ w. record { word = w; brought = [] }) v.words.items };

    ghost law = { λ _ log. All (λ e. e.brought ≡ []) log };

    fn filed(&self) -> u32 {
        self.words.len() as u32
    }
}

impl Words {
    fn new(alloc: Global) -> Words
        ensures { result.words.items ≡ [] }
    {
        Words {
            words: Vec::new(alloc),
        }
    }

    fn record(&mut self, word: u64) -> Result<(), AllocError>
        ensures ok { OnOk result (self.new.words.items ≡ self.old.words.items ++ word ∷ []) }
        ensures err { OnErr result (self.new.words.items ≡ self.old.words.items) }
    {
        if self.words.len() >= u32::MAX as usize {
            return Err(AllocError);
        }
        self.words.push(word)?;
        Ok(())
    }
}

/// One turn, which files one word.
fn file_word(
    rt: &impl Wait,
    gate: &Turnstile<Words>,
    pass: &mut Pass<Words>,
    word: u64,
) -> Result<(), AllocError>
    requires idle { IsIdleAt gate.now pass.old }
    requires number { word / 72057594037927936 ≡ pass.old.number }
    ensures idle { IsIdleAt gate.now pass.new }
    ensures same { IsSamePass pass.old pass.new }
    ensures mine { OnOk result
        (pass.new.mine ≡ pass.old.mine ++ record { word = word; brought = [] } ∷ []) }
{
    let mut turn = gate.take_turn(rt, pass);
    match turn.value().record(word) {
        Ok(()) => {
            turn.file();
            turn.leave();
            Ok(())
        }
        Err(e) => {
            turn.leave();
            Err(e)
        }
    }
}

/// A hundred turns.
fn file_many(
    rt: &impl Wait,
    gate: &Turnstile<Words>,
    mut pass: Pass<Words>,
    number: u8,
) -> (Pass<Words>, Result<(), AllocError>)
    requires idle { IsIdleAt gate.now pass }
    requires number { pass.number ≡ number }
    ensures idle { IsIdleAt gate.now result.0 }
    ensures same { IsSamePass pass result.0 }
{
    for k in 0..100u64 {
        let word = u64::from(number) * 72057594037927936 + k;
        if let Err(e) = file_word(rt, gate, &mut pass, word) {
            return (pass, Err(e));
        }
    }
    (pass, Ok(()))
}

/// How many words of the number there are, if they are 0, 1 and so on, in this order.
fn count_in_order(words: &[u64], number: u64) -> Option<u64> {
    let mut next = 0u64;
    for word in words {
        if *word / 72057594037927936 == number {
            if *word % 72057594037927936 != next {
                return None;
            }
            next = next.saturating_add(1);
        }
    }
    Some(next)
}

/// Two threads, each with its pass.
fn file_in_two_threads<R: Threads + Wait + Sync>(
    rt: &R,
    gate: &Turnstile<Words>,
    one: Pass<Words>,
    two: Pass<Words>,
) -> (
    (Pass<Words>, Result<(), AllocError>),
    (Pass<Words>, Result<(), AllocError>),
)
    requires one { IsIdleAt gate.now one × (one.number ≡ 1) }
    requires two { IsIdleAt gate.now two × (two.number ≡ 2) }
    ensures one { IsIdleAt gate.now result.0.0 }
    ensures two { IsIdleAt gate.now result.1.0 }
{
    join(
        rt,
        move || -> (Pass<Words>, Result<(), AllocError>)
            requires { IsSync R.row × IsIdleAt gate.now one × (one.number ≡ 1) }
            ensures { IsIdleAt gate.entry.now result.0 }
        { file_many(rt, gate, one, 1) },
        move || -> (Pass<Words>, Result<(), AllocError>)
            requires { IsSync R.row × IsIdleAt gate.now two × (two.number ≡ 2) }
            ensures { IsIdleAt gate.entry.now result.0 }
        { file_many(rt, gate, two, 2) },
    )
}

/// Files a word and writes a note, in which the word is seen.
fn tell(
    rt: &impl Wait,
    gate: &Turnstile<Words>,
    mut pass: Pass<Words>,
    word: u64,
) -> (Pass<Words>, Note<Words>)
    requires idle { IsIdleAt gate.now pass }
    requires number { word / 72057594037927936 ≡ pass.number }
    ensures idle { IsIdleAt gate.now result.0 × (result.0.number ≡ pass.number) }
    ensures note { result.1.turnstile ≡ gate.now }
{
    let _ = file_word(rt, gate, &mut pass, word);
    let note = gate.note(&mut pass);
    (pass, note)
}

/// How many entries the pass has seen once it has met the note.
fn hear(gate: &Turnstile<Words>, mut pass: Pass<Words>, note: Note<Words>) -> (Pass<Words>, u32)
    requires idle { IsIdleAt gate.now pass × (note.turnstile ≡ gate.now) }
    ensures idle { IsIdleAt gate.now result.0 × (result.0.number ≡ pass.number) }
{
    gate.meet(&mut pass, note);
    let front = gate.front(&mut pass);
    (pass, front)
}

/// One thread tells, then another hears of it, while a third pass is split off.
fn pass_on<R: Threads + Wait + Sync>(
    rt: &R,
    gate: &Turnstile<Words>,
    first: &mut Pass<Words>,
    one: Pass<Words>,
) -> (Pass<Words>, Pass<Words>, u32)
    requires one { IsIdleAt gate.now one × (one.number ≡ 1) }
    requires first { IsIdleAt gate.now first.old × (first.old.number ≡ 0) × (first.old.made < 255) }
    ensures one { IsIdleAt gate.now result.0 }
    ensures two { IsIdleAt gate.now result.1 }
    ensures first { IsIdleAt gate.now first.new × (first.new ≡ one_more first.old) }
{
    let two = gate.split(first);
    let ((one, note), ()) = join(
        rt,
        move || -> (Pass<Words>, Note<Words>)
            requires { IsSync R.row × IsIdleAt gate.now one × (one.number ≡ 1) }
            ensures { IsIdleAt gate.entry.now result.0 × (result.1.turnstile ≡ gate.entry.now) }
        { tell(rt, gate, one, 0x0109000000000002) },
        || (),
    );
    let ((two, front), ()) = join(
        rt,
        move || -> (Pass<Words>, u32)
            requires { IsIdleAt gate.now two × (note.turnstile ≡ gate.now) }
            ensures { IsIdleAt gate.entry.now result.0 }
        { hear(gate, two, note) },
        || (),
    );
    (one, two, front)
}

/// A turn at any value, in which nothing is filed.
fn look_in<V: Historied>(rt: &impl Wait, gate: &Turnstile<V>, mut pass: Pass<V>) -> Pass<V>
    requires { IsIdleAt gate.now pass }
    ensures { IsIdleAt gate.now result × IsSamePass pass result × (result.mine ≡ pass.mine) }
{
    gate.take_turn(rt, &mut pass).leave();
    pass
}

/// Two threads that look in.
fn look_in_two_threads<V: Historied + Send, R: Threads + Wait + Sync>(
    rt: &R,
    gate: &Turnstile<V>,
    one: Pass<V>,
    two: Pass<V>,
) -> (Pass<V>, Pass<V>)
    requires { IsIdleAt gate.now one × IsIdleAt gate.now two }
    ensures { IsIdleAt gate.now result.0 × IsIdleAt gate.now result.1 }
{
    join(
        rt,
        move || -> Pass<V>
            requires { IsSync R.row × IsIdleAt gate.now one }
            ensures { IsIdleAt gate.entry.now result }
        { look_in(rt, gate, one) },
        move || -> Pass<V>
            requires { IsSync R.row × IsIdleAt gate.now two }
            ensures { IsIdleAt gate.entry.now result }
        { look_in(rt, gate, two) },
    )
}

#[test]
fn two_passes_a_note_and_a_close(rt: HostRuntime) -> Result<(), Fail> {
    let Ok((gate, mut first)) = Turnstile::new(rt.alloc(), Words::new(rt.alloc())) else {
        panic!(rt; "there is memory")
    };
    let mut other = gate.split(&mut first);
    let zero = file_word(&rt, &gate, &mut first, 0x0009000000000001);
    let one = file_word(&rt, &gate, &mut other, 0x0109000000000002);
    let note = gate.note(&mut first);
    gate.meet(&mut other, note);
    let front = gate.front(&mut other);
    let numbers = (first.number(), other.number());
    gate.retire(&mut first, other);
    let value = gate.close(first);
    assert!(rt; zero.is_ok() && one.is_ok() && front == 2 && numbers == (0, 1));
    assert!(rt; value.words.as_slice() == [0x0009000000000001, 0x0109000000000002].as_slice());
    Ok(())
}

#[test]
fn two_threads_file_a_hundred_words_each(rt: HostRuntime) -> Result<(), Fail> {
    let Ok((gate, mut first)) = Turnstile::new(rt.alloc(), Words::new(rt.alloc())) else {
        panic!(rt; "there is memory")
    };
    let one = gate.split(&mut first);
    let two = gate.split(&mut first);
    let ((one, filed_one), (two, filed_two)) = file_in_two_threads(&rt, &gate, one, two);
    let (one, two) = look_in_two_threads(&rt, &gate, one, two);
    gate.retire(&mut first, one);
    gate.retire(&mut first, two);
    let value = gate.close(first);
    assert!(rt; filed_one.is_ok() && filed_two.is_ok() && value.words.len() == 200);
    assert!(rt; count_in_order(value.words.as_slice(), 1) == Some(100));
    assert!(rt; count_in_order(value.words.as_slice(), 2) == Some(100));
    Ok(())
}

#[test]
fn a_note_crosses_threads(rt: HostRuntime) -> Result<(), Fail> {
    let Ok((gate, mut first)) = Turnstile::new(rt.alloc(), Words::new(rt.alloc())) else {
        panic!(rt; "there is memory")
    };
    let one = gate.split(&mut first);
    let (one, two, front) = pass_on(&rt, &gate, &mut first, one);
    gate.retire(&mut first, one);
    gate.retire(&mut first, two);
    let value = gate.close(first);
    assert!(rt; front == 1 && value.words.as_slice() == [0x0109000000000002].as_slice());
    Ok(())
}
