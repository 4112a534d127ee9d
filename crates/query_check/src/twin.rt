// Refusal 6: two equal interesting orders.
ghost use Rattle.std.specs.Prelude.{◌≡◌, map};
ghost use Rattle.theory.specs.Tests.{member, up_from};
ghost use Rattle.theory.specs.Orders.{same_order};
ghost use Rattle.theory.specs.Query.{order_at, twin_refusal};
ghost use Rattle.numbers.specs.Refusals.{refusal_in};

use numbers::refusals::Refusal;
use query::bytes;

// Whether order i is one of those before it.
fn seen_before(query: &[u8], i: u16) -> bool
    ensures { result ≡ member same_order (order_at query.now i) (map (order_at query.now) (up_from 0 i)) }
{
    let order = bytes::order_at(query, i);
    for j in 0..i {
        if order_search::same(order, bytes::order_at(query, j)) {
            return true;
        }
    }
    false
}

// Each order, which has to be none of those before it.
pub fn check_twins(query: &[u8]) -> Result<(), Refusal>
    ensures { refusal_in result ≡ twin_refusal query.now }
{
    for i in 0..bytes::order_count(query) {
        if seen_before(query, i) {
            return Err(Refusal::Twin);
        }
    }
    Ok(())
}
