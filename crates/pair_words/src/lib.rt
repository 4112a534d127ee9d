// The held words of the pairs, read and written: the word of a pair of a produced order and a choice of sets in force lies in the scratch, low byte first, produced order
// by produced order and the choices counted upwards. Every function requires what its callers have shown: none is an entry point.
#![tactic(auto)]

ghost use Rattle.std.specs.Prelude.{◌≡◌, [], ◌∷◌, ◌+◌, ◌*◌, ◌/◌, ◌%◌, ◌^◌, ◌≤◌, ◌<◌, length};
ghost use Rattle.theory.specs.Limits.{max_produced};
ghost use Rattle.theory.specs.Scratch.{pair_at, word_at, held_part};
ghost use Rattle.theory.specs.Placed.{placed};

use byte_rows::word;
use handles::{OrderHandle, SetChoice};
use numbers::limits::HELD_WIDTH;
use numbers::scratch::WORDS_PART;
use query_sizes::Sizes;

// The number of the pair of produced order p and choice x: produced order by produced order, the choices counted upwards.
pub fn pair(sizes: Sizes, p: usize, x: usize) -> usize
    requires { (p < max_produced) × (x < 2 ^ sizes.sets) }
    ensures { (result ≡ p * 2 ^ sizes.sets + x) × (result < 2048) }
{
    p * sizes.choices() + x
}

// Where the word of produced order p under choice x begins.
fn place(sizes: Sizes, p: usize, x: usize) -> usize
    requires { (p < max_produced) × (x < 2 ^ sizes.sets) }
    ensures { (result ≡ pair_at sizes.sets p x) × (result + 2 ≤ held_part) }
{
    WORDS_PART + HELD_WIDTH * pair(sizes, p, x)
}

// The word of produced order p under choice x.
pub fn read(work: &[u8], sizes: Sizes, p: OrderHandle, x: SetChoice) -> u16
    requires { (p.0 < max_produced) × (x.0 < 2 ^ sizes.sets) × (held_part ≤ length work.now) }
    ensures { result ≡ word_at sizes.sets work.now p.0 x.0 }
{
    let at = place(sizes, p.0 as usize, x.0 as usize);
    word(work[at], work[at + 1])
}

// Write a word at a place, low byte first. All other bytes keep their values.
pub fn put(work: &mut [u8], at: usize, word: u16)
    requires { at + 2 ≤ length work.old }
    ensures { work.new ≡ placed at (word % 256 ∷ word / 256 ∷ []) work.old }
{
    byte_rows::copy(work, at, &word.to_le_bytes());
}

// Write the word of produced order p under choice x. All other bytes keep their values.
pub fn write(work: &mut [u8], sizes: Sizes, p: OrderHandle, x: SetChoice, word: u16)
    requires { (p.0 < max_produced) × (x.0 < 2 ^ sizes.sets) × (held_part ≤ length work.old) }
    ensures { work.new ≡ placed (pair_at sizes.sets p.0 x.0) (word % 256 ∷ word / 256 ∷ []) work.old }
{
    put(work, place(sizes, p.0 as usize, x.0 as usize), word);
}
