// A table's bytes: its sizes, the check of its form and of its rows, a state's successors and held word, and the writer of the sizes. The checks and the sizes take any bytes of any length;
// what reads a start, a state's row or its word takes a table whose form has passed, and the last two a state of it, and what writes requires room. None of those is an entry point.
#![tactic(auto)]

mod checks;
mod formed;
mod sizes;

ghost use Rattle.std.specs.Prelude.{◌≡◌, [], ◌∷◌, ◌≤◌, length};
ghost use Rattle.std.proofs.Math.Seq.{paste};
ghost use Rattle.theory.specs.Limits.{table_sizes};

pub use checks::check;
pub use formed::FormedTable;
pub use sizes::{form, produced, sets, states, tested};

// Write the sizes Q, P, T, S.
pub fn write_sizes(out: &mut [u8], q: u8, p: u8, t: u8, s: u8)
    requires { table_sizes ≤ length out.old }
    ensures { out.new ≡ paste out.old 0 (q ∷ p ∷ t ∷ s ∷ []) table_sizes }
{
    let sizes = [q, p, t, s];
    byte_rows::copy(out, 0, &sizes);
}
