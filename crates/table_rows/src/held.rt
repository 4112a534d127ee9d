// The rows' held words, written in the place of their pairs.
ghost use Rattle.std.specs.Prelude.{◌≡◌, ◌+◌, ◌^◌, ◌≤◌, ◌<◌, length};
ghost use mathlib.Core.List.{map, flatten};
ghost use Rattle.theory.specs.Tests.{up_from};
ghost use Rattle.theory.specs.Limits.{max_produced, max_states};
ghost use Rattle.theory.specs.Query.{byte_at};
ghost use Rattle.theory.specs.Scratch.{held_part, work_length};
ghost use Rattle.theory.specs.Placed.{placed};
ghost use Rattle.row_pairs.specs.RowPairs.{row_place, Pairs};
ghost use Rattle.table_rows.specs.Walk.{held_row};

use numbers::limits::HELD_WIDTH;
use numbers::scratch::HELD_PART;
use query_sizes::Sizes;

// Row i's pair becomes its held word, low byte first.
fn hold_row(work: &mut [u8], sizes: Sizes, i: usize)
    requires { (byte_at work.old (row_place i) < max_produced) × (byte_at work.old (row_place i + 1) < 2 ^ sizes.sets) × (i < max_states) × (work_length ≤ length work.old) }
    ensures { work.new ≡ placed (row_place i) (held_row (sizes.produced + sizes.tested) sizes.sets work.old i) work.old }
{
    let pair = row_pairs::row_pair(work, i);
    let word = row_pairs::cut_word(work, sizes, pair);
    pair_words::put(work, HELD_PART + i * HELD_WIDTH, word as u16);
}

// Each row's pair becomes its held word.
pub fn hold_rows(work: &mut [u8], sizes: Sizes, count: usize)
    requires { Pairs sizes.sets work.old count × (work_length ≤ length work.old) }
    ensures { work.new ≡ placed held_part (flatten (map (held_row (sizes.produced + sizes.tested) sizes.sets work.old) (up_from 0 count))) work.old }
{
    for i in 0..count {
        hold_row(work, sizes, i);
    }
}
