// Refusals 1, 2, 1: fewer than five bytes; a size outside its limits; a total other than the sizes imply.
ghost use Rattle.std.specs.Prelude.{◌≡◌, ◌+◌, ◌*◌};
ghost use Rattle.theory.specs.Tests.{pick};
ghost use Rattle.theory.specs.Refusals.{passed, size_refused};
ghost use Rattle.theory.specs.Query.{item_count, outside, sizes_refusal};
ghost use Rattle.theory.specs.Limits.{query_sizes, item_width};
ghost use Rattle.numbers.specs.Refusals.{refusal_in};

use numbers::limits;
use numbers::refusals::Refusal;
use query::bytes;

// A size, which has to be within its limits.
fn check_size(low: u8, high: u8, size: u8) -> Result<(), Refusal>
    ensures { refusal_in result ≡ pick (outside low high size) size_refused passed }
{
    if (low..=high).contains(&size) {
        Ok(())
    } else {
        Err(Refusal::Size)
    }
}

// The total that the sizes imply: the five sizes, and five bytes for each item.
fn implied(query: &[u8]) -> usize
    ensures { result ≡ query_sizes + item_width * item_count query.now }
{
    limits::QUERY_SIZES + limits::ITEM_WIDTH * bytes::item_count(query) as usize
}

// The length and the sizes N, P, T, S, D.
pub fn check_sizes(query: &[u8]) -> Result<(), Refusal>
    ensures { refusal_in result ≡ sizes_refusal query.now }
{
    if query.len() < limits::QUERY_SIZES {
        return Err(Refusal::Length);
    }
    check_size(1, limits::MAX_COLUMNS, query_sizes::columns(query))?;
    check_size(1, limits::MAX_PRODUCED, query_sizes::produced(query))?;
    check_size(0, limits::MAX_TESTED, query_sizes::tested(query))?;
    check_size(0, limits::MAX_SETS, query_sizes::sets(query))?;
    check_size(
        0,
        limits::MAX_DEPENDENCIES,
        query_sizes::dependencies(query),
    )?;
    if query.len() != implied(query) {
        return Err(Refusal::Length);
    }
    Ok(())
}
