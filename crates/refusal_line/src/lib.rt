// The line of a refusal, written into a lent text. The function requires what its callers have shown: it is no entry point.
#![tactic(auto)]

ghost use Rattle.std.specs.Prelude.{◌≤◌, length};
ghost use Rattle.theory.specs.Listing.{refused_line};
ghost use Rattle.text.specs.Text.{Printed};
ghost use Rattle.refusal_line.specs.Refusal.{longest_refusal};

use text::{number, word};

// The line of a refusal, by its number: any number has a line.
pub fn refused(n: u8, text: &mut [u8]) -> usize
    requires { longest_refusal ≤ length text.old }
    ensures { Printed text.old (refused_line n) text.new result }
{
    let at = word(text, 0, b"refused ");
    let end = number(text, at, n as usize);
    word(text, end, b"\n")
}
