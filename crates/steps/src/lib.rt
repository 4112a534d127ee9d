// A build between control cycles: begun, then continued by calls that settle one pair of a produced order and a choice of sets in force each, and ended by one call more, which
// merges and writes. Between calls the scratch keeps the count of the pairs settled and their held bytes.
#![tactic(auto)]

ghost use Rattle.std.specs.Prelude.{◌≡◌, ◌↔◌, Ok, None, length};
ghost use Rattle.theory.specs.Steps.{begin_refusal, begun_scratch, pair_settled, continued, continued_output, continued_scratch};
ghost use Rattle.numbers.specs.Refusals.{refusal_in};
ghost use Rattle.steps.specs.Continued.{step_answer, continued_answer};

use numbers::limits::SCRATCH_LENGTH;
use numbers::refusals::Refusal;

// Begin a build, whatever its query's bytes and whatever is lent: checks 1 to 6, then 9 for scratch. No pair is settled.
pub fn begin(query: &[u8], scratch: &mut [u8]) -> Result<(), Refusal>
    ensures value { refusal_in result ≡ begin_refusal query.now (length scratch.old) }
    ensures scratch_after { scratch.new ≡ begun_scratch query.now scratch.old }
{
    step_checks::check_lent(query, scratch.len())?;
    step_scratch::clear_and_count(scratch);
    Ok(())
}

// Continue a build, whatever the query's bytes and whatever is lent: the checks of beginning, then 14; then a pair is settled or, after the last one, what was settled is merged and
// written, with 8 and 9 for output. The table's length; none where a pair was settled.
pub fn go_on(query: &[u8], scratch: &mut [u8], output: &mut [u8]) -> Result<Option<usize>, Refusal>
    ensures value { step_answer result ≡ continued_answer (continued query.now scratch.old (length output.old)) }
    ensures settled { (result ≡ Ok None) ↔ (continued query.now scratch.old (length output.old) ≡ pair_settled) }
    ensures output_after { output.new ≡ continued_output query.now scratch.old output.old }
    ensures scratch_after { scratch.new ≡ continued_scratch query.now scratch.old }
{
    let checked = step_checks::check_continued(query, scratch)?;
    let count = step_checks::count(scratch);
    if count <= step_checks::pairs(&checked) {
        step_scratch::settle_next(&checked, scratch, count);
        return Ok(None);
    }
    let length = builder::merge(&checked, &mut scratch[..SCRATCH_LENGTH], output)?;
    Ok(Some(length))
}
