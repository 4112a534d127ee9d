// An order gone through: the place of an entry in it, whether an entry occurs, and whether two orders are equal. Every function takes any value.
#![tactic(auto)]

ghost use Rattle.std.specs.Prelude.{◌≡◌, ◌<◌, eqb, length, MatchOption};
ghost use Rattle.theory.specs.Tests.{member, position};
ghost use Rattle.theory.specs.Orders.{same_order};
ghost use Rattle.orders.specs.Orders.{order_of};

use orders::Order;

// The place of an entry; none where it does not occur.
pub fn position(o: Order, e: u8) -> Option<usize>
    ensures { MatchOption result (position eqb e (order_of o) ≡ length (order_of o))
        (λ i. (i ≡ position eqb e (order_of o)) × (i < length (order_of o))) }
{
    o.entries().iter().position(|entry| *entry == e)
}

// Whether an entry occurs.
pub fn has(o: Order, e: u8) -> bool
    ensures { result ≡ member eqb e (order_of o) }
{
    position(o, e).is_some()
}

// Whether two orders are equal, directions included.
pub fn same(a: Order, b: Order) -> bool
    ensures { result ≡ same_order (order_of a) (order_of b) }
{
    a.entries() == b.entries()
}
