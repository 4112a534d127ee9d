// Shows why a sort is needed: `order_counterexample QUERY PRODUCED SETS ORDER` takes the name of a query's file and three decimal numbers, a produced order, a choice of sets in
// force and an interesting order. It prints two rows, one a line, that stand in the one order and not in the other; or `none`; or the line of the refusal; on standard output.
//
// No query has more than 165 bytes, so the first 256 bytes of the file are enough: what is answered to them is answered to the whole file, which is proved (`told_longer`). Reading
// stops there, or where the file ends.
#![tactic(auto)]

ghost use Rattle.std.specs.Prelude.{◌+◌, ◌*◌, ◌≤◌, length};
ghost use Rattle.theory.specs.Tests.{Says};
ghost use Rattle.theory.specs.Limits.{max_columns};
ghost use Rattle.text.specs.Text.{Wrote, Printed};
ghost use Rattle.refusal_line.specs.Refusal.{longest_refusal};
ghost use Rattle.order_counterexample.specs.Evidence.{longest_rows, none_line, row_line, rows_text, large_line, Small, Told, EvidencePrinted};

use counterexample::find;
use decimal::LARGE_NUMBER;
use files::{is_given, read_argument};
use handles::{OrderHandle, SetChoice};
use numbers::limits::QUERY_FRONT;
use numbers::refusals::Refusal;
use refusal_line::refused;
use std::io::Write;
use std::rt::{Env, Files};

// Two rows of 12 columns, and the longest text of two rows.
const ROWS_ROOM: usize = 24;

const LONGEST_ROWS: usize = 96;

// Linux passes no longer argument.
const LONGEST_WORD: usize = 131072;

// The line that says that there are no such rows; how many bytes of the text it takes.
fn none(text: &mut [u8]) -> usize
    requires { longest_rows ≤ length text.old }
    ensures { Printed text.old none_line text.new result }
{
    text::word(text, 0, b"none\n")
}

// The line of a row, at a place of the text. The place behind it.
fn row_line(row: &[u8], text: &mut [u8], at: usize) -> usize
    requires { (1 ≤ length row.now) × (at + length row.now * 4 ≤ length text.old) }
    ensures { Wrote text.old at (row_line row.now) (length row.now * 4) text.new result }
{
    let second = text::number(text, at, row[0] as usize);
    let end = text::row_numbers(&row[1..], text, second);
    text::word(text, end, b"\n")
}

// The lines of two rows of n values.
fn two_rows(rows: &[u8], n: usize, text: &mut [u8]) -> usize
    requires { (1 ≤ n) × (n ≤ max_columns) × (2 * n ≤ length rows.now) × (longest_rows ≤ length text.old) }
    ensures { Printed text.old (rows_text n rows.now) text.new result }
{
    let second = row_line(&rows[..n], text, 0);
    let end = n + n;
    row_line(&rows[n..end], text, second)
}

// Whether all three numbers are bytes.
fn small(produced: u16, sets: u16, order: u16) -> bool
    ensures { Says (Small produced sets order) result }
{
    if produced >= LARGE_NUMBER {
        return false;
    }
    if sets >= LARGE_NUMBER {
        return false;
    }
    order < LARGE_NUMBER
}

// What is answered where a number is larger than a byte: the query's own refusal, or that no handle is so large.
fn large(query: &[u8], text: &mut [u8]) -> usize
    requires { longest_refusal ≤ length text.old }
    ensures { Printed text.old (large_line query.now) text.new result }
{
    let refusal = match query_check::check(query) {
        Ok(_) => Refusal::Handle,
        Err(refusal) => refusal,
    };
    refused(u8::from(refusal), text)
}

// What is answered to a query and three bytes.
fn evidence(query: &[u8], produced: u8, sets: u8, order: u8, text: &mut [u8]) -> usize
    requires { longest_rows ≤ length text.old }
    ensures { Told query.now produced sets order text.old text.new result }
{
    let mut rows = [0u8; ROWS_ROOM];
    match find(
        query,
        OrderHandle(produced),
        SetChoice(sets),
        OrderHandle(order),
        &mut rows,
    ) {
        Ok(true) => two_rows(&rows, query_sizes::columns(query) as usize, text),
        Ok(false) => none(text),
        Err(refusal) => refused(u8::from(refusal), text),
    }
}

// What is answered to a query, of which its first 256 bytes are given, and three numbers as they were read; how many bytes of the text it takes.
fn answer(query: &[u8], produced: u16, sets: u16, order: u16, text: &mut [u8]) -> usize
    requires { longest_rows ≤ length text.old }
    ensures { EvidencePrinted query.now produced sets order text.old text.new result }
{
    if small(produced, sets, order) {
        return evidence(query, produced as u8, sets as u8, order as u8, text);
    }
    large(query, text)
}

// Prints the answer, and says whether all of it was written.
fn print<W: Write>(output: &mut W, query: &[u8], produced: u16, sets: u16, order: u16) -> bool {
    let mut text = [0u8; LONGEST_ROWS];
    let length = answer(query, produced, sets, order, &mut text);
    output.write_all(&text[..length]).is_ok()
}

// Reads the query and prints the answer. What failed is said on standard error.
fn answer_file<R: Env + Files, O: Write, E: Write>(
    rt: &R,
    output: &mut O,
    errors: &mut E,
    produced: u16,
    sets: u16,
    order: u16,
) {
    let mut query = [0u8; QUERY_FRONT];
    let Ok(n) = read_argument(rt, errors, 1, &mut query) else {
        return;
    };
    if !print(output, &query[..n], produced, sets, order) {
        let _ = errors.write_all(b"cannot write the answer\n");
    }
}

// The number that an argument is. That it is none is said on standard error.
fn read_number<R: Env, W: Write>(rt: &R, errors: &mut W, i: usize) -> Option<u16> {
    let mut word = [0u8; LONGEST_WORD];
    let number = match rt.arg(i, &mut word) {
        Ok(length) => decimal::read(&word[..length]),
        Err(_) => None,
    };
    if number.is_none() {
        let _ = errors.write_all(b"PRODUCED, SETS and ORDER must be decimal numbers\n");
    }
    number
}

// The exit status is 0 in each case, and what failed is said on standard error, in one line: the numbers are read first, and the file only where they are numbers.
fn main(rt: HostRuntime) {
    let mut errors = rt.stderr();
    if !is_given(&rt, 4) || is_given(&rt, 5) {
        let _ = errors.write_all(b"usage: order_counterexample QUERY PRODUCED SETS ORDER\n");
        return;
    }
    let Some(produced) = read_number(&rt, &mut errors, 2) else {
        return;
    };
    let Some(sets) = read_number(&rt, &mut errors, 3) else {
        return;
    };
    let Some(order) = read_number(&rt, &mut errors, 4) else {
        return;
    };
    answer_file(&rt, &mut rt.stdout(), &mut errors, produced, sets, order);
}
