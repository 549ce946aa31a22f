ghost use Rattle.std.specs.Prelude.{◌≡◌, ◌≤◌, ◌<◌, ◌+◌, ◌*◌, ◌^◌, None, length, replicate, vec_capacity};
ghost use Rattle.chain_index.specs.Chains.{AreLinked, heads_for};

/// How many heads there are at first.
pub const FIRST_HEADS: u32 = 4_096;

/// How often the heads are doubled.
pub const DOUBLINGS: u32 = 8;

/// How many heads there are at most.
pub const MOST_HEADS: usize = 1_048_576;

/// How many heads there are for so many records.
pub fn heads_for(records: u32) -> u32
    ensures { result ≡ heads_for records }
{
    let mut heads = FIRST_HEADS;
    for _doubling in 0..DOUBLINGS {
        if heads < records {
            heads *= 2;
        }
    }
    heads
}

/// Links the record of a number, at the front of its chain.
pub fn link_one(hashes: &[u32], heads: &mut [Option<u32>], nexts: &mut [Option<u32>], number: u32)
    requires some { 0 < length heads.old }
    requires there { number < length hashes.now }
    requires long { length nexts.old ≡ length hashes.now }
    requires before { AreLinked hashes.now heads.old nexts.old number }
    ensures { AreLinked hashes.now heads.new nexts.new (number + 1) }
{
    let place = number as usize;
    let bucket = hashes[place] as usize % heads.len();
    nexts[place] = heads[bucket];
    heads[bucket] = Some(number);
}

/// Links all records, from the first on.
pub fn link_all(hashes: &[u32], heads: &mut [Option<u32>], nexts: &mut [Option<u32>])
    requires some { 0 < length heads.old }
    requires few { length hashes.now < 2 ^ 32 }
    requires long { length nexts.old ≡ length hashes.now }
    requires empty { heads.old ≡ replicate (length heads.old) None }
    ensures { AreLinked hashes.now heads.new nexts.new (length hashes.now) }
{
    for number in 0..hashes.len() as u32 {
        link_one(hashes, heads, nexts, number);
    }
}

/// Twice as many heads, all of empty chains.
pub fn widen(heads: &mut Vec<Option<u32>>)
    requires { 2 * length heads.old.items ≤ vec_capacity heads.old }
    ensures empty { heads.new.items ≡ replicate (2 * length heads.old.items) None }
    ensures capacity { vec_capacity heads.old ≤ vec_capacity heads.new }
{
    let more = heads.len() * 2;
    heads.clear();
    heads.resize(more, None).unwrap();
}

/// Links the last record, with twice as many heads where that is due.
pub fn link_last(
    hashes: &[u32],
    heads: &mut Vec<Option<u32>>,
    nexts: &mut [Option<u32>],
    number: u32,
)
    requires last { length hashes.now ≡ number + 1 }
    requires few { length hashes.now < 2 ^ 32 }
    requires long { length nexts.old ≡ length hashes.now }
    requires counted { length heads.old.items ≡ heads_for number }
    requires room { heads_for (number + 1) ≤ vec_capacity heads.old }
    requires before { AreLinked hashes.now heads.old.items nexts.old number }
    ensures all { AreLinked hashes.now heads.new.items nexts.new (length hashes.now) }
    ensures counted { length heads.new.items ≡ heads_for (number + 1) }
    ensures capacity { vec_capacity heads.old ≤ vec_capacity heads.new }
{
    if heads.len() <= number as usize && heads.len() < MOST_HEADS {
        widen(heads);
        link_all(hashes, heads, nexts);
    } else {
        link_one(hashes, heads, nexts, number);
    }
}
