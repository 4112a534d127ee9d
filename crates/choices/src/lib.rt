// Every produced order under every choice of sets in force: the word of the interesting orders that are held, in its place in the scratch.
#![tactic(auto)]

mod held;

ghost use Rattle.std.specs.Prelude.{◌≡◌, ◌+◌, ◌*◌, ◌^◌, ◌≤◌, ◌<◌, length};
ghost use Rattle.theory.specs.Query.{produced_count, read_query};
ghost use Rattle.theory.specs.Limits.{held_width};
ghost use Rattle.theory.specs.Placed.{placed};
ghost use Rattle.theory.specs.Scratch.{words_part, held_part, work_length};
ghost use Rattle.theory.specs.Steps.{pair_count, pair_bytes};
ghost use Rattle.choices.specs.Words.{settled_orders, WordsAre};

use arrayvec::ArrayVec;
use closure::PreparedRules;
use handles::{OrderHandle, SetChoice};
use numbers::limits::MASK_BITS;
use query::CheckedQuery;

// The held words of so many produced orders from `from` on under choice x, from the rules in force. All other bytes keep their values.
fn settle_choice(query: &CheckedQuery, work: &mut [u8], x: u8, from: u8, count: u8)
    requires { (x < 2 ^ (read_query query.now).sets) × (from + count ≤ produced_count query.now) × (held_part ≤ length work.old) }
    ensures { work.new ≡ settled_orders query.now x from count work.old }
{
    let sizes = query.sizes();
    let mut rules = PreparedRules {
        arrows: ArrayVec::new(),
        start: 0,
        classes: [0; MASK_BITS],
    };
    preparation::prepare(query, SetChoice(x), &mut rules);
    for p in from..from + count {
        let word = held::word(query, &rules, p);
        pair_words::write(work, sizes, OrderHandle(p), SetChoice(x), word);
    }
}

// One pair, counted produced order by produced order and the choices upwards: its held bytes are written. All other bytes keep their values.
pub fn settle_pair(query: &CheckedQuery, work: &mut [u8], k: usize)
    requires { (k < pair_count (read_query query.now)) × (held_part ≤ length work.old) }
    ensures { work.new ≡ placed (words_part + held_width * k) (pair_bytes (read_query query.now) k) work.old }
{
    let choices = query.sizes().choices();
    let p = k / choices;
    let x = k % choices;
    settle_choice(query, work, x as u8, p as u8, 1);
}

// The held word of every pair.
pub fn settle(query: &CheckedQuery, work: &mut [u8])
    requires { work_length ≤ length work.old }
    ensures { WordsAre query.now work.new × (length work.new ≡ length work.old) }
{
    let sizes = query.sizes();
    let produced = sizes.produced as u8;
    for x in 0..sizes.choices() {
        settle_choice(query, work, x as u8, 0, produced);
    }
}
