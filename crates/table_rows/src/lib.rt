// The rows of the smallest table, from the held words of the pairs that lie in the scratch, whatever they are: the starts, then what each row becomes under each set,
// each numbered once. A row is what is held under each choice of further sets, so pairs that answer alike for every further choice are one row. Every function requires
// what its callers have shown: none is an entry point.
#![tactic(auto)]

mod held;
mod numbered;
mod walk;

ghost use Rattle.std.specs.Prelude.{◌≡◌, ◌≤◌, length};
ghost use Rattle.theory.specs.Scratch.{work_length};
ghost use Rattle.table_rows.specs.Rows.{RowsFound};
ghost use Rattle.table_rows.specs.Walk.{sizes_of};

use query_sizes::Sizes;

// The starts, the rows of successors and the held words, each in its part of the scratch. How many rows there are; none where there are more than 128.
pub fn number(work: &mut [u8], sizes: Sizes) -> Option<usize>
    requires { (1 ≤ sizes.produced) × (work_length ≤ length work.old) }
    ensures { RowsFound (sizes_of sizes) work.old work.new result × (length work.new ≡ length work.old) }
{
    open_sets::open_pairs(work, sizes.produced, sizes);
    let begun = walk::number_starts(work, sizes)?;
    let count = walk::walk_rows(work, sizes, begun)?;
    held::hold_rows(work, sizes, count);
    Some(count)
}
