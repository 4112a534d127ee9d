// Reads a query on standard input and prints its listing on standard output.
//
// No query has more than 165 bytes, so the first 256 bytes of the input are enough: their listing is that of the whole input, which is proved
// (`listing_front`). Reading stops there, or where the input ends.
#![tactic(auto)]

ghost use Rattle.std.specs.Prelude.{◌≤◌, length};
ghost use Rattle.listing.specs.Lines.{longest_listing};
ghost use Rattle.order_listing.specs.Lists.{Lists};

use input::read_front;
use numbers::limits::{LONGEST_LISTING, QUERY_FRONT, SCRATCH_LENGTH};
use std::io::Write;

// The listing of an input, of which its first 256 bytes are given; how many bytes of the text it takes. There is room for
// every listing, so the 9 of a short buffer never comes.
fn answer(front: &[u8], text: &mut [u8]) -> usize
    requires { longest_listing ≤ length text.old }
    ensures { Lists front.now text.new result }
{
    let mut scratch = [0u8; SCRATCH_LENGTH];
    query_listing::list(front, &mut scratch, text).unwrap()
}

// Prints the listing, and says whether all of it was written.
fn print<W: Write>(output: &mut W, front: &[u8]) -> bool {
    let mut text = [0u8; LONGEST_LISTING];
    let length = answer(front, &mut text);
    output.write_all(&text[..length]).is_ok()
}

// The exit status is 0 in each case, and what failed is said on standard error.
fn main(rt: HostRuntime) {
    let mut errors = rt.stderr();
    let mut buffer = [0u8; QUERY_FRONT];
    let Ok(n) = read_front(&mut rt.stdin(), &mut buffer) else {
        let _ = errors.write_all(b"cannot read the query\n");
        return;
    };
    if !print(&mut rt.stdout(), &buffer[..n]) {
        let _ = errors.write_all(b"cannot write the listing\n");
    }
}
