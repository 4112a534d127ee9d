// The listing of a query, written into a lent text.
#![tactic(auto)]

ghost use Rattle.std.specs.Prelude.{◌≡◌, [], ◌≤◌, length, take};
ghost use Rattle.theory.specs.Limits.{scratch_length};
ghost use Rattle.theory.specs.Refusals.{space_refused};
ghost use Rattle.theory.specs.Build.{scratch_after, zeroed};
ghost use Rattle.theory.specs.Listing.{refused_line, listing};
ghost use Rattle.numbers.specs.Refusals.{number_of, answer_in};
ghost use Rattle.query_listing.specs.Listed.{list_refusal, listed_answer, text_after, Handed, Listing};

use numbers::limits::{LONGEST_REFUSAL, LONGEST_TABLE, SCRATCH_LENGTH};
use numbers::refusals::Refusal;
use table::FormedTable;

// The listing of a query, or of its refusal, into the work memory; how many bytes.
fn write_listing(query: &[u8], work: &mut [u8]) -> usize
    requires { length work.old ≡ scratch_length }
    ensures { Listing (listing query.now) work.new result × (length work.new ≡ length work.old) }
{
    let mut table = [0u8; LONGEST_TABLE];
    match builder::build(query, work, &mut table) {
        Ok(length) => listing::list(&FormedTable::new(&table[..length]), work),
        Err(refusal) => refusal_line::refused(u8::from(refusal), work),
    }
}

// A listing into the text, or 9 where the text is shorter. The listing's length.
fn hand_over(listing: &[u8], text: &mut [u8]) -> Result<usize, Refusal>
    ensures { Handed listing.now text.old text.new result }
{
    if text.len() < listing.len() {
        return Err(Refusal::Space);
    }
    byte_rows::copy(text, 0, listing);
    Ok(listing.len())
}

// The line of a refusal into the text.
fn list_refusal(refusal: Refusal, text: &mut [u8]) -> Result<usize, Refusal>
    ensures { Handed (refused_line (number_of refusal)) text.old text.new result }
{
    let mut line = [0u8; LONGEST_REFUSAL];
    let n = refusal_line::refused(u8::from(refusal), &mut line);
    hand_over(&line[..n], text)
}

// The listing, made in the work memory and handed over into the text; the work memory is cleared behind it.
fn list_cleared(query: &[u8], work: &mut [u8], text: &mut [u8]) -> Result<usize, Refusal>
    requires { length work.old ≡ scratch_length }
    ensures { Handed (listing query.now) text.old text.new result × (work.new ≡ zeroed (length work.old) work.old) }
{
    let n = write_listing(query, work);
    let listed = hand_over(&work[..n], text);
    byte_rows::clear(work);
    listed
}

// List a query, whatever its bytes and whatever is lent: checks 1 to 6, whose line is the listing, then 9 for scratch, then 8, whose line is the listing,
// and 9 for a text shorter than what is to be printed. The listing's length.
pub fn list(query: &[u8], scratch: &mut [u8], text: &mut [u8]) -> Result<usize, Refusal>
    ensures value { answer_in result ≡ listed_answer (listing query.now) (list_refusal query.now (length scratch.old) (length text.old)) }
    ensures text_after { text.new ≡ text_after (listing query.now) (list_refusal query.now (length scratch.old) (length text.old)) text.old }
    ensures scratch_after { scratch.new ≡ scratch_after query.now scratch.old }
{
    if let Err(refusal) = query_check::check(query) {
        return list_refusal(refusal, text);
    }
    if scratch.len() < SCRATCH_LENGTH {
        return Err(Refusal::Space);
    }
    list_cleared(query, &mut scratch[..SCRATCH_LENGTH], text)
}
