// The numbering walk: the starts first; then each row, in number order, takes each set, in number order, and each new row gets the next number.
ghost use Rattle.std.specs.Prelude.{◌≡◌, ◌+◌, ◌*◌, ◌≤◌, ◌<◌, length, take};
ghost use Rattle.theory.specs.Limits.{max_states};
ghost use Rattle.theory.specs.Scratch.{held_part, successors_part, starts_part, work_length};
ghost use Rattle.open_sets.specs.Open.{Opened};
ghost use Rattle.table_rows.specs.Walk.{RowsVisited, Taking, Walked, WalkedAll, sizes_of};

use crate::numbered::number_row;
use numbers::scratch::{STARTS_PART, SUCCESSORS_PART};
use query_sizes::Sizes;
use row_pairs::Pair;

// Each produced order with no set in force is numbered, and its number written to the starts. How many rows there are; none where there is no room.
pub fn number_starts(work: &mut [u8], sizes: Sizes) -> Option<usize>
    requires { Opened sizes.produced (sizes.produced + sizes.tested) sizes.sets (take held_part work.old) work.old × (work_length ≤ length work.old) }
    ensures { Walked (sizes_of sizes) (take held_part work.old) work.new result 0 × (length work.new ≡ length work.old) }
{
    let mut known = 0;
    for p in 0..sizes.produced {
        let start = Pair {
            order: p,
            choice: 0,
        };
        let numbered = number_row(work, sizes, known, start)?;
        known = numbered.count;
        work[STARTS_PART + p] = numbered.number as u8;
    }
    Some(known)
}

// Where the successor of row i for set s lies.
fn slot(sizes: Sizes, i: usize, s: usize) -> usize
    requires { (i < max_states) × (s < sizes.sets) }
    ensures { (result ≡ successors_part + (i * sizes.sets + s)) × (result < starts_part) }
{
    SUCCESSORS_PART + (i * sizes.sets + s)
}

// Row i, which the pair gives, takes each set, and its successors are written. How many rows there are; none where there is no room.
fn take_sets(work: &mut [u8], sizes: Sizes, count: usize, i: usize, pair: Pair) -> Option<usize>
    requires { Taking (sizes_of sizes) (take held_part work.old) work.old count i pair.order pair.choice 0 × (work_length ≤ length work.old) }
    ensures { Walked (sizes_of sizes) (take held_part work.old) work.new result (i + 1) × (length work.new ≡ length work.old) }
{
    let mut known = count;
    for s in 0..sizes.sets {
        let numbered = number_row(work, sizes, known, pair.with_set(sizes, s))?;
        known = numbered.count;
        work[slot(sizes, i, s)] = numbered.number as u8;
    }
    Some(known)
}

// Row i takes each set. How many rows there are; none where there is no room.
fn visit(work: &mut [u8], sizes: Sizes, count: usize, i: usize) -> Option<usize>
    requires { RowsVisited (sizes_of sizes) (take held_part work.old) work.old count i × (i < count) × (work_length ≤ length work.old) }
    ensures { Walked (sizes_of sizes) (take held_part work.old) work.new result (i + 1) × (length work.new ≡ length work.old) }
{
    let pair = row_pairs::row_pair(work, i);
    take_sets(work, sizes, count, i, pair)
}

// Visit each row in turn, the new ones too: their count grows on the way, so no range says how far. How many rows there are; none where there is no room.
pub fn walk_rows(work: &mut [u8], sizes: Sizes, count: usize) -> Option<usize>
    requires { RowsVisited (sizes_of sizes) (take held_part work.old) work.old count 0 × (work_length ≤ length work.old) }
    ensures { WalkedAll (sizes_of sizes) (take held_part work.old) work.new result × (length work.new ≡ length work.old) }
{
    let mut known = count;
    let mut i = 0;
    while i < known {
        known = visit(work, sizes, known, i)?;
        i += 1;
    }
    Some(known)
}
