// A row gets its number.
ghost use Rattle.std.specs.Prelude.{◌≡◌, suc, ◌+◌, ◌^◌, ◌≤◌, ◌<◌, length, take};
ghost use Rattle.theory.specs.Limits.{max_produced};
ghost use Rattle.theory.specs.Scratch.{held_part, open_in, work_length};
ghost use Rattle.open_sets.specs.Open.{state_of};
ghost use Rattle.row_pairs.specs.RowPairs.{Pairs};
ghost use Rattle.row_search.specs.RowStates.{Whole, Wholes};
ghost use Rattle.table_rows.specs.Walk.{Numbering};

use numbers::limits::{HELD_WIDTH, MAX_STATES};
use numbers::scratch::HELD_PART;
use query_sizes::Sizes;
use row_pairs::Pair;

// A row's number, and how many rows are numbered.
#[derive(Clone, Copy)]
pub struct RowNumber {
    pub number: usize,
    pub count: usize,
}

// The whole choice that gives the same state as the pair's choice: all sets are in force but the open ones.
fn whole(work: &[u8], sizes: Sizes, pair: Pair) -> usize
    requires { (open_in sizes.sets work.now pair.order pair.choice < 2 ^ sizes.sets) × (pair.order < max_produced) × (pair.choice < 2 ^ sizes.sets) × (work_length ≤ length work.now) }
    ensures { suc (result + open_in sizes.sets work.now pair.order pair.choice) ≡ 2 ^ sizes.sets }
{
    sizes.choices() - 1 - open_sets::open_in(work, sizes, pair)
}

// Number the row that a pair with a whole choice gives: it keeps the number that it has, or gets the next; none where there is no room for it.
fn number_whole(work: &mut [u8], sizes: Sizes, count: usize, pair: Pair) -> Option<RowNumber>
    requires { Pairs sizes.sets work.old count × Wholes sizes.produced (sizes.produced + sizes.tested) sizes.sets work.old count × (pair.order < sizes.produced) × (pair.choice < 2 ^ sizes.sets) × Whole sizes.sets work.old pair.order pair.choice × (work_length ≤ length work.old) }
    ensures { Numbering sizes.produced (sizes.produced + sizes.tested) sizes.sets work.old work.new (state_of (sizes.produced + sizes.tested) sizes.sets (take held_part work.old) pair.order pair.choice) count result }
{
    if let Some(number) = row_search::find_row(work, sizes, count, pair) {
        return Some(RowNumber { number, count });
    }
    if count == MAX_STATES {
        return None;
    }
    let at = HELD_PART + count * HELD_WIDTH;
    work[at] = pair.order as u8;
    work[at + 1] = pair.choice as u8;
    Some(RowNumber {
        number: count,
        count: count + 1,
    })
}

// Number the row that a pair gives, by the whole choice that gives the same state.
pub fn number_row(work: &mut [u8], sizes: Sizes, count: usize, pair: Pair) -> Option<RowNumber>
    requires { Pairs sizes.sets work.old count × Wholes sizes.produced (sizes.produced + sizes.tested) sizes.sets work.old count × (pair.order < sizes.produced) × (pair.choice < 2 ^ sizes.sets) × (work_length ≤ length work.old) }
    ensures { Numbering sizes.produced (sizes.produced + sizes.tested) sizes.sets work.old work.new (state_of (sizes.produced + sizes.tested) sizes.sets (take held_part work.old) pair.order pair.choice) count result }
{
    let whole = whole(work, sizes, pair);
    number_whole(work, sizes, count, pair.under(whole))
}
