// The listing of a table, written into a lent text.
#![tactic(auto)]

ghost use Rattle.std.specs.Prelude.{◌≤◌, length};
ghost use Rattle.theory.specs.Listing.{table_listing};
ghost use Rattle.text.specs.Text.{Printed};
ghost use Rattle.listing.specs.Lines.{longest_listing};

use lines::{count_line, start_lines, state_lines};
use table::FormedTable;

mod lines;

// The listing of a table; how many bytes it has. They are the first ones of the text, and the others are kept.
pub fn list(table: &FormedTable, text: &mut [u8]) -> usize
    requires { longest_listing ≤ length text.old }
    ensures { Printed text.old (table_listing table.now) text.new result }
{
    let starts = count_line(table, text, 0);
    let states = start_lines(table, text, starts);
    state_lines(table, text, states)
}
