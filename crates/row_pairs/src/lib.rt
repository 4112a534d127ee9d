// Pairs of a produced order and the number of a choice of sets in force: the word of a pair without the bits that do not count, the pair of a row, and a pair under another choice.
// While rows are numbered, row i is two bytes, a pair that gives it. Every function requires what its callers have shown: none is an entry point.
#![tactic(auto)]

ghost use Rattle.std.specs.Prelude.{◌≡◌, ◌+◌, ◌^◌, ◌≤◌, ◌<◌, length, take};
ghost use Rattle.std.specs.Int.Bits.{bit_or};
ghost use Rattle.theory.specs.Limits.{max_produced, max_states};
ghost use Rattle.theory.specs.Query.{byte_at};
ghost use Rattle.theory.specs.Scratch.{held_part, work_length};
ghost use Rattle.row_pairs.specs.RowPairs.{cut_word, row_place};

use handles::{OrderHandle, SetChoice};
use numbers::limits::HELD_WIDTH;
use numbers::scratch::HELD_PART;
use query_sizes::Sizes;

// A produced order, and a choice of sets in force.
#[derive(Clone, Copy)]
pub struct Pair {
    pub order: usize,
    pub choice: usize,
}

impl Pair {
    // The pair of the same produced order and another choice.
    pub fn under(self, choice: usize) -> Pair
        ensures order { result.order ≡ self.order }
        ensures choice { result.choice ≡ choice }
    {
        Pair {
            order: self.order,
            choice,
        }
    }

    // The pair with set s in force too.
    pub fn with_set(self, sizes: Sizes, s: usize) -> Pair
        requires { (self.choice < 2 ^ sizes.sets) × (s < sizes.sets) }
        ensures order { result.order ≡ self.order }
        ensures choice { (result.choice ≡ bit_or self.choice (2 ^ s)) × (result.choice < 2 ^ sizes.sets) }
    {
        self.under(self.choice | (1usize << s))
    }
}

// The word of a pair, without the bits that do not count.
pub fn cut_word(work: &[u8], sizes: Sizes, pair: Pair) -> usize
    requires { (pair.order < max_produced) × (pair.choice < 2 ^ sizes.sets) × (held_part ≤ length work.now) }
    ensures { (result ≡ cut_word (sizes.produced + sizes.tested) sizes.sets (take held_part work.now) pair.order pair.choice) × (result < 65536) }
{
    let word = pair_words::read(
        work,
        sizes,
        OrderHandle(pair.order as u8),
        SetChoice(pair.choice as u8),
    );
    word as usize % (1usize << sizes.orders())
}

// The pair of row i.
pub fn row_pair(work: &[u8], i: usize) -> Pair
    requires { (i < max_states) × (work_length ≤ length work.now) }
    ensures order { result.order ≡ byte_at work.now (row_place i) }
    ensures choice { result.choice ≡ byte_at work.now (row_place i + 1) }
{
    let at = HELD_PART + i * HELD_WIDTH;
    Pair {
        order: work[at] as usize,
        choice: work[at + 1] as usize,
    }
}
