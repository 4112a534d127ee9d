// The open sets of each pair: those that change what the pair answers when they are taken. A pair's are gathered from those of its successors, so that the choices are gone
// through from the largest down. Every function requires what its callers have shown: none is an entry point.
#![tactic(auto)]

ghost use Rattle.std.specs.Prelude.{◌≡◌, ◌+◌, ◌^◌, ◌≤◌, ◌<◌, length, take};
ghost use Rattle.theory.specs.Limits.{max_produced};
ghost use Rattle.theory.specs.Scratch.{held_part, open_at, open_in, work_length};
ghost use Rattle.open_sets.specs.Open.{OpenSets, Opened, Gathered, next_open, NextOpened};

use numbers::scratch::OPEN_PART;
use query_sizes::Sizes;
use row_pairs::{Pair, cut_word};

// Where the open sets of a pair lie.
fn place(sizes: Sizes, pair: Pair) -> usize
    requires { (pair.order < max_produced) × (pair.choice < 2 ^ sizes.sets) }
    ensures { (result ≡ open_at sizes.sets pair.order pair.choice) × (result < work_length) }
{
    OPEN_PART + pair_words::pair(sizes, pair.order, pair.choice)
}

// The open sets of a pair.
pub fn open_in(work: &[u8], sizes: Sizes, pair: Pair) -> usize
    requires { (pair.order < max_produced) × (pair.choice < 2 ^ sizes.sets) × (work_length ≤ length work.now) }
    ensures { result ≡ open_in sizes.sets work.now pair.order pair.choice }
{
    work[place(sizes, pair)] as usize
}

// The open sets that set s adds to those gathered before it, where it is not in force: those of the successor, and s itself where the successor's word is another.
fn add(work: &[u8], sizes: Sizes, pair: Pair, s: usize, gathered: usize) -> usize
    requires { Gathered (sizes.produced + sizes.tested) sizes.sets (take held_part work.now) (next_open sizes.sets work.now pair.order pair.choice) pair.order pair.choice s gathered × NextOpened (sizes.produced + sizes.tested) sizes.sets work.now pair.order pair.choice × (pair.order < max_produced) × (pair.choice < 2 ^ sizes.sets) × (s < sizes.sets) × (work_length ≤ length work.now) }
    ensures { Gathered (sizes.produced + sizes.tested) sizes.sets (take held_part work.now) (next_open sizes.sets work.now pair.order pair.choice) pair.order pair.choice (s + 1) result }
{
    if (pair.choice >> s) % 2 == 1 {
        return gathered;
    }
    let next = pair.with_set(sizes, s);
    let more = gathered | open_in(work, sizes, next);
    if cut_word(work, sizes, next) == cut_word(work, sizes, pair) {
        return more;
    }
    more | (1usize << s)
}

// The open sets of a pair, from those of its successors.
fn gather(work: &[u8], sizes: Sizes, pair: Pair) -> usize
    requires { NextOpened (sizes.produced + sizes.tested) sizes.sets work.now pair.order pair.choice × (pair.order < max_produced) × (pair.choice < 2 ^ sizes.sets) × (work_length ≤ length work.now) }
    ensures { OpenSets (sizes.produced + sizes.tested) sizes.sets (take held_part work.now) pair.order pair.choice result × (result < 256) }
{
    let mut gathered = 0;
    for s in 0..sizes.sets {
        gathered = add(work, sizes, pair, s, gathered);
    }
    gathered
}

// The open sets of produced order p under every choice.
fn open_order(work: &mut [u8], sizes: Sizes, p: usize)
    requires { Opened p (sizes.produced + sizes.tested) sizes.sets (take held_part work.old) work.old × (p < max_produced) × (work_length ≤ length work.old) }
    ensures { Opened (p + 1) (sizes.produced + sizes.tested) sizes.sets (take held_part work.old) work.new × (take held_part work.new ≡ take held_part work.old) × (length work.new ≡ length work.old) }
{
    for m in (0..sizes.choices()).rev() {
        let pair = Pair {
            order: p,
            choice: m,
        };
        let at = place(sizes, pair);
        work[at] = gather(work, sizes, pair) as u8;
    }
}

// The open sets of every pair of the first so many produced orders.
pub fn open_pairs(work: &mut [u8], produced: usize, sizes: Sizes)
    requires { (produced ≤ max_produced) × (work_length ≤ length work.old) }
    ensures { Opened produced (sizes.produced + sizes.tested) sizes.sets (take held_part work.old) work.new × (take held_part work.new ≡ take held_part work.old) × (length work.new ≡ length work.old) }
{
    for p in 0..produced {
        open_order(work, sizes, p);
    }
}
