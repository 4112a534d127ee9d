// The checks 1 to 6 of a query's bytes, whatever they are.
#![tactic(auto)]

mod sizes;
mod twin;

ghost use Rattle.std.specs.Prelude.{◌≡◌, IfOk};
ghost use Rattle.theory.specs.Query.{query_refusal};
ghost use Rattle.numbers.specs.Refusals.{refusal_in};

use numbers::refusals::Refusal;
use query::CheckedQuery;

// The query where the checks 1 to 6 pass; else the first that refuses.
pub fn check(query: &[u8]) -> Result<CheckedQuery<'_>, Refusal>
    ensures refusal { refusal_in result ≡ query_refusal query.now }
    ensures bytes { IfOk result (λ checked. checked ≡ query.now) }
{
    sizes::check_sizes(query)?;
    item_check::check_items(query)?;
    twin::check_twins(query)?;
    Ok(CheckedQuery::new(query))
}
