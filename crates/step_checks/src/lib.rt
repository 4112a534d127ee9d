// The checks of a stepped build: those of beginning take any bytes; those of a count require that they passed. None is an entry point.
#![tactic(auto)]

ghost use Rattle.std.specs.Prelude.{◌≡◌, ◌≤◌, ◌<◌, length, IfOk};
ghost use Rattle.theory.specs.Limits.{scratch_length};
ghost use Rattle.theory.specs.Query.{read_query};
ghost use Rattle.theory.specs.Steps.{pair_count, count_in, begin_refusal, count_refusal, continue_refusal};
ghost use Rattle.numbers.specs.Refusals.{refusal_in};

use numbers::limits::SCRATCH_LENGTH;
use numbers::refusals::Refusal;
use numbers::scratch::COUNT_PART;
use query::CheckedQuery;

// Checks 1 to 6, then 9 for a scratch of this length.
pub fn check_lent(query: &[u8], scratch: usize) -> Result<CheckedQuery<'_>, Refusal>
    ensures refusal { refusal_in result ≡ begin_refusal query.now scratch }
    ensures bytes { IfOk result (λ checked. checked ≡ query.now) }
{
    let checked = query_check::check(query)?;
    if scratch < SCRATCH_LENGTH {
        return Err(Refusal::Space);
    }
    Ok(checked)
}

// How many pairs a query has.
pub fn pairs(query: &CheckedQuery) -> usize
    ensures { (result ≡ pair_count (read_query query.now)) × (result ≤ 2048) }
{
    let sizes = query.sizes();
    sizes.produced * sizes.choices()
}

// The count that lies in the scratch.
pub fn count(scratch: &[u8]) -> usize
    requires { scratch_length ≤ length scratch.now }
    ensures { (result ≡ count_in scratch.now) × (result < 65536) }
{
    byte_rows::word(scratch[COUNT_PART], scratch[COUNT_PART + 1]) as usize
}

// 14 where no build with so many pairs has this count.
fn check_count(pairs: usize, count: usize) -> Result<(), Refusal>
    requires { pairs ≤ 2048 }
    ensures { refusal_in result ≡ count_refusal pairs count }
{
    if (1..=pairs + 1).contains(&count) {
        Ok(())
    } else {
        Err(Refusal::Count)
    }
}

// The checks of beginning, then 14.
pub fn check_continued<'a>(query: &'a [u8], scratch: &[u8]) -> Result<CheckedQuery<'a>, Refusal>
    ensures refusal { refusal_in result ≡ continue_refusal query.now scratch.now }
    ensures bytes { IfOk result (λ checked. checked ≡ query.now) }
{
    let checked = check_lent(query, scratch.len())?;
    check_count(pairs(&checked), count(scratch))?;
    Ok(checked)
}
