// The two rows by the masks where the closure test stops, written into a buffer. Every function requires what its callers have shown: none is an entry point.
#![tactic(auto)]

ghost use Rattle.std.specs.Prelude.{◌≡◌, ◌++◌, ◌+◌, ◌*◌, ◌<◌, ◌≤◌, length, not};
ghost use Rattle.theory.specs.Tests.{in_mask};
ghost use Rattle.theory.specs.Limits.{max_columns};
ghost use Rattle.theory.specs.Placed.{placed};
ghost use Rattle.settled.specs.Ends.{value_in, row_by};

use column_masks::has;
use settled::Stop;

// A row's value in a column: 0 where it is settled; elsewhere the one row has 1 in the columns of the class, and the other in all others.
fn value(inside: bool, stop: Stop, c: u8) -> u8
    requires { c < 16 }
    ensures { result ≡ value_in inside (in_mask stop.settled c) (in_mask stop.class c) }
{
    if has(stop.settled, c) {
        return 0;
    }
    let member = has(stop.class, c);
    u8::from(inside == member)
}

// One of the rows, written at a place.
fn write_row(rows: &mut [u8], at: usize, n: usize, inside: bool, stop: Stop)
    requires { (n ≤ max_columns) × (at + n ≤ length rows.old) }
    ensures { rows.new ≡ placed at (row_by inside stop.settled stop.class n) rows.old }
{
    for c in 0..n {
        rows[at + c] = value(inside, stop, c as u8);
    }
}

// Both rows of n columns, row after row, in the first bytes: the one with 1 in the class comes first where the produced order's entry ascends.
pub fn write(rows: &mut [u8], n: usize, stop: Stop)
    requires { (n ≤ max_columns) × (2 * n ≤ length rows.old) }
    ensures { rows.new ≡ placed 0 (row_by stop.ascends stop.settled stop.class n ++ row_by (not stop.ascends) stop.settled stop.class n) rows.old }
{
    write_row(rows, 0, n, stop.ascends, stop);
    write_row(rows, n, n, !stop.ascends, stop);
}
