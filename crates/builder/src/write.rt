// A table's bytes, written into the output from the parts of the scratch: the sizes and the starts, the successors, and the held words.
ghost use Rattle.std.specs.Prelude.{◌≡◌, ◌∷◌, ◌+◌, ◌*◌, ◌≤◌, length};
ghost use Rattle.theory.specs.Limits.{max_states, table_sizes, held_width};
ghost use Rattle.theory.specs.Scratch.{work_length};
ghost use Rattle.theory.specs.Placed.{placed};
ghost use Rattle.builder.specs.Written.{stored_table};

use numbers::limits::{HELD_WIDTH, TABLE_SIZES};
use numbers::scratch::{HELD_PART, STARTS_PART, SUCCESSORS_PART};
use query_sizes::Sizes;

// How many bytes a table of q states with these sizes has.
pub fn size(q: usize, sizes: Sizes) -> usize
    requires { q ≤ max_states }
    ensures { result ≡ table_sizes + sizes.produced + q * sizes.sets + q * held_width }
{
    TABLE_SIZES + sizes.produced + q * sizes.sets + q * HELD_WIDTH
}

// The sizes and the starts.
fn write_front(output: &mut [u8], q: usize, sizes: Sizes, starts: &[u8])
    requires { (q ≤ max_states) × (table_sizes + length starts.now ≤ length output.old) }
    ensures { output.new ≡ placed 0 (q ∷ sizes.produced ∷ sizes.tested ∷ sizes.sets ∷ starts.now) output.old }
{
    table::write_sizes(
        output,
        q as u8,
        sizes.produced as u8,
        sizes.tested as u8,
        sizes.sets as u8,
    );
    byte_rows::copy(output, TABLE_SIZES, starts);
}

// The whole table.
pub fn write(work: &[u8], q: usize, sizes: Sizes, output: &mut [u8])
    requires { (q ≤ max_states) × (work_length ≤ length work.now) × (table_sizes + sizes.produced + q * sizes.sets + q * held_width ≤ length output.old) }
    ensures { output.new ≡ placed 0 (stored_table work.now q sizes.produced sizes.tested sizes.sets) output.old }
{
    let starts = byte_rows::part(work, STARTS_PART, sizes.produced);
    write_front(output, q, sizes, starts);
    let at = TABLE_SIZES + sizes.produced;
    let run = q * sizes.sets;
    byte_rows::copy(output, at, byte_rows::part(work, SUCCESSORS_PART, run));
    let words = byte_rows::part(work, HELD_PART, q * HELD_WIDTH);
    byte_rows::copy(output, at + run, words);
}
