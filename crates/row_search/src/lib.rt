// Rows compared and found. The function requires what its callers have shown: it is no entry point.
#![tactic(auto)]

ghost use Rattle.std.specs.Prelude.{◌≡◌, ◌+◌, ◌^◌, ◌≤◌, ◌<◌, MatchOption, length, take};
ghost use Rattle.theory.specs.Tests.{position};
ghost use Rattle.theory.specs.AnswerTree.{same_tree};
ghost use Rattle.theory.specs.Scratch.{held_part, work_length};
ghost use Rattle.open_sets.specs.Open.{state_of};
ghost use Rattle.row_pairs.specs.RowPairs.{Pairs};
ghost use Rattle.row_search.specs.RowStates.{row_states, Whole, Wholes};

use query_sizes::Sizes;
use row_pairs::{Pair, cut_word, row_pair};

// The number of the row that a pair with a whole choice gives, the one that holds the same under every choice of further sets; none where no row is it. A row with another whole
// choice is another; with the same one it is the same where the words under all larger choices are, which are gone through in steps that no range takes.
pub fn find_row(work: &[u8], sizes: Sizes, count: usize, pair: Pair) -> Option<usize>
    requires { Pairs sizes.sets work.now count × Wholes sizes.produced (sizes.produced + sizes.tested) sizes.sets work.now count × (pair.order < sizes.produced) × (pair.choice < 2 ^ sizes.sets) × Whole sizes.sets work.now pair.order pair.choice × (work_length ≤ length work.now) }
    ensures { MatchOption result
        (position same_tree (state_of (sizes.produced + sizes.tested) sizes.sets (take held_part work.now) pair.order pair.choice) (row_states (sizes.produced + sizes.tested) sizes.sets work.now count) ≡ count)
        (λ i. (i < count) × (i ≡ position same_tree (state_of (sizes.produced + sizes.tested) sizes.sets (take held_part work.now) pair.order pair.choice) (row_states (sizes.produced + sizes.tested) sizes.sets work.now count))) }
{
    let choices = sizes.choices();
    'row: for i in 0..count {
        let row = row_pair(work, i);
        if row.choice != pair.choice {
            continue 'row;
        }
        let mut x = pair.choice;
        while x < choices {
            if cut_word(work, sizes, pair.under(x)) != cut_word(work, sizes, row.under(x)) {
                continue 'row;
            }
            x = (x + 1) | pair.choice;
        }
        return Some(i);
    }
    None
}
