// Says whether a supplier's table is accepted for a query: `order_verify QUERY TABLE` takes the names of two files and prints `accepted`, or the line of the
// refusal, on standard output.
//
// No query has more than 165 bytes and no table more than 1,292, so the first 256 bytes of the one file and the first 1,293 of the other are enough: their
// outcome is that of the whole files, which is proved (`verify_front`). Reading stops there, or where the file ends.
#![tactic(auto)]

ghost use Rattle.std.specs.Prelude.{◌≤◌, length};
ghost use Rattle.text.specs.Text.{Printed};
ghost use Rattle.refusal_line.specs.Refusal.{longest_refusal};
ghost use Rattle.numbers.specs.Refusals.{refusal_in};
ghost use Rattle.order_verify.specs.Verdict.{accepted_line, verdict_line, VerdictPrinted};

use files::{is_given, read_argument};
use numbers::limits::{LONGEST_REFUSAL, QUERY_FRONT, SCRATCH_LENGTH, TABLE_FRONT};
use numbers::refusals::Refusal;
use std::io::Write;
use text::word;

// The line of an accepted table; how many bytes of the text it takes.
fn accepted(text: &mut [u8]) -> usize
    requires { longest_refusal ≤ length text.old }
    ensures { Printed text.old accepted_line text.new result }
{
    word(text, 0, b"accepted\n")
}

// The line of an outcome.
fn verdict(outcome: Result<(), Refusal>, text: &mut [u8]) -> usize
    requires { longest_refusal ≤ length text.old }
    ensures { Printed text.old (verdict_line (refusal_in outcome)) text.new result }
{
    match outcome {
        Ok(()) => accepted(text),
        Err(refusal) => refusal_line::refused(u8::from(refusal), text),
    }
}

// The line of a trial's outcome, where the first 256 bytes of the query and the first 1,293 of the table are given.
fn answer(query: &[u8], table: &[u8], text: &mut [u8]) -> usize
    requires { longest_refusal ≤ length text.old }
    ensures { VerdictPrinted query.now table.now text.old text.new result }
{
    let mut scratch = [0u8; SCRATCH_LENGTH];
    verdict(verify::verify(query, table, &mut scratch), text)
}

// Prints the outcome, and says whether all of it was written.
fn print<W: Write>(output: &mut W, query: &[u8], table: &[u8]) -> bool {
    let mut text = [0u8; LONGEST_REFUSAL];
    let length = answer(query, table, &mut text);
    output.write_all(&text[..length]).is_ok()
}

// The exit status is 0 in each case, and what failed is said on standard error.
fn main(rt: HostRuntime) {
    let mut errors = rt.stderr();
    if !is_given(&rt, 2) || is_given(&rt, 3) {
        let _ = errors.write_all(b"usage: order_verify QUERY TABLE\n");
        return;
    }
    let mut query = [0u8; QUERY_FRONT];
    let Ok(m) = read_argument(&rt, &mut errors, 1, &mut query) else {
        return;
    };
    let mut table = [0u8; TABLE_FRONT];
    let Ok(n) = read_argument(&rt, &mut errors, 2, &mut table) else {
        return;
    };
    if !print(&mut rt.stdout(), &query[..m], &table[..n]) {
        let _ = errors.write_all(b"cannot write the outcome\n");
    }
}
