// Words and numbers, each written at a place of a lent text. Each function hands back the place behind, and requires what its callers have shown: none is an entry point.
#![tactic(auto)]

ghost use mathlib.Core.List.{[], ◌∷◌, map, flatten};
ghost use Rattle.std.specs.Prelude.{◌+◌, ◌*◌, ◌%◌, ◌<◌, ◌≤◌, length};
ghost use Rattle.theory.specs.Listing.{decimal, decimal_within, spaced};
ghost use Rattle.text.specs.Text.{Wrote};

use byte_rows::copy;

// A word, or any bytes.
pub fn word(text: &mut [u8], at: usize, bytes: &[u8]) -> usize
    requires { at + length bytes.now ≤ length text.old }
    ensures { Wrote text.old at bytes.now (length bytes.now) text.new result }
{
    copy(text, at, bytes);
    at + bytes.len()
}

// The last digit of a number.
fn digit(text: &mut [u8], at: usize, n: usize) -> usize
    requires { at + 1 ≤ length text.old }
    ensures { Wrote text.old at ((48 + n % 10) ∷ []) 1 text.new result }
{
    let last = [b'0' + (n % 10) as u8];
    word(text, at, &last)
}

// A number in decimal, its last k digits at most. std does not promise that its printing succeeds where there is room, so it is not used here.
pub fn number_of(text: &mut [u8], at: usize, k: usize, n: usize) -> usize
    requires { at + k ≤ length text.old }
    ensures { Wrote text.old at (decimal_within k n) k text.new result }
{
    if k == 0 {
        return at;
    }
    if n < 10 {
        return digit(text, at, n);
    }
    let last = number_of(text, at, k - 1, n / 10);
    digit(text, last, n)
}

// A number below a thousand in decimal.
pub fn number(text: &mut [u8], at: usize, n: usize) -> usize
    requires { (n < 1000) × (at + 3 ≤ length text.old) }
    ensures { Wrote text.old at (decimal n) 3 text.new result }
{
    number_of(text, at, 3, n)
}

// A space and a number.
pub fn spaced_number(text: &mut [u8], at: usize, n: u8) -> usize
    requires { at + 4 ≤ length text.old }
    ensures { Wrote text.old at (spaced n) 4 text.new result }
{
    let digits = word(text, at, b" ");
    number(text, digits, n as usize)
}

// A row of numbers, each behind a space.
pub fn row_numbers(row: &[u8], text: &mut [u8], at: usize) -> usize
    requires { at + length row.now * 4 ≤ length text.old }
    ensures { Wrote text.old at (flatten (map spaced row.now)) (length row.now * 4) text.new result }
{
    let mut end = at;
    for &n in row {
        end = spaced_number(text, end, n);
    }
    end
}
