// The lines of a listing, each written at a place of a text. Each hands back the place behind.
ghost use Rattle.std.specs.Prelude.{◌+◌, ◌<◌, ◌≤◌, length};
ghost use Rattle.theory.specs.Table.{states_in, produced_in};
ghost use Rattle.theory.specs.Listing.{count_line, start_line, state_line};
ghost use Rattle.table.specs.Form.{Formed};
ghost use Rattle.text.specs.Text.{Wrote};
ghost use Rattle.listing.specs.Lines.{longest_count, longest_start, longest_starts, longest_held, longest_state, longest_states, lines, held_field};

use handles::StateNumber;
use table::{FormedTable, produced, states};
use text::{number, number_of, row_numbers, spaced_number, word};

// The count of states.
pub fn count_line(table: &FormedTable, text: &mut [u8], at: usize) -> usize
    requires { at + longest_count ≤ length text.old }
    ensures { Wrote text.old at (count_line table.now) longest_count text.new result }
{
    let count = states(table.bytes());
    let first = word(text, at, b"states ");
    let end = number(text, first, count);
    word(text, end, b"\n")
}

// A produced order with its start.
fn start_line(table: &FormedTable, p: u8, text: &mut [u8], at: usize) -> usize
    requires { (p < produced_in table.now) × (at + longest_start ≤ length text.old) }
    ensures { Wrote text.old at (start_line table.now p) longest_start text.new result }
{
    let first = word(text, at, b"start ");
    let second = number(text, first, p as usize);
    let end = spaced_number(text, second, table.starts()[p as usize]);
    word(text, end, b"\n")
}

// All produced orders with their starts.
pub fn start_lines(table: &FormedTable, text: &mut [u8], at: usize) -> usize
    requires { at + longest_starts ≤ length text.old }
    ensures { Wrote text.old at (lines (start_line table.now) (produced_in table.now)) longest_starts text.new result }
{
    let mut end = at;
    for p in 0..produced(table.bytes()) as u8 {
        end = start_line(table, p, text, end);
    }
    end
}

// The end of a state's line: its held bits.
fn held_field(table: &FormedTable, state: StateNumber, text: &mut [u8], at: usize) -> usize
    requires { (state.0 < states_in table.now) × (at + longest_held ≤ length text.old) }
    ensures { Wrote text.old at (held_field table.now state.0) longest_held text.new result }
{
    let first = word(text, at, b" held ");
    let end = number_of(text, first, 5, table.held_word(state) as usize);
    word(text, end, b"\n")
}

// A state with its successor per set and its held bits.
fn state_line(table: &FormedTable, state: StateNumber, text: &mut [u8], at: usize) -> usize
    requires { Formed table.now × (state.0 < states_in table.now) × (at + longest_state ≤ length text.old) }
    ensures { Wrote text.old at (state_line table.now state.0) longest_state text.new result }
{
    let first = word(text, at, b"state ");
    let second = number(text, first, state.0 as usize);
    let third = word(text, second, b" next");
    let end = row_numbers(table.successors(state), text, third);
    held_field(table, state, text, end)
}

// All states.
pub fn state_lines(table: &FormedTable, text: &mut [u8], at: usize) -> usize
    requires { at + longest_states ≤ length text.old }
    ensures { Wrote text.old at (lines (state_line table.now) (states_in table.now)) longest_states text.new result }
{
    let mut end = at;
    for state in 0..states(table.bytes()) as u8 {
        end = state_line(table, StateNumber(state), text, end);
    }
    end
}
