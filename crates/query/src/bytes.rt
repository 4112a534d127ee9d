// Reading a query's bytes: the counts, the heads and the four bytes of each item. Items are counted from 0, the orders first.
ghost use Rattle.std.specs.Prelude.{◌≡◌, ◌-◌, ◌≤◌, min};
ghost use Rattle.theory.specs.Query.{order_count, item_count, head_at, body_at, order_at};
ghost use Rattle.theory.specs.Limits.{body_width};
ghost use Rattle.orders.specs.Orders.{OrderIs};

use byte_rows::byte;
use numbers::limits;
use orders::Order;
use query_sizes::{dependencies, produced, tested};

// The number of interesting orders, P + T.
pub fn order_count(query: &[u8]) -> u16
    ensures { (result ≡ order_count query.now) × (result ≤ 510) }
{
    produced(query) as u16 + tested(query) as u16
}

// The number of items, P + T + D.
pub fn item_count(query: &[u8]) -> u16
    ensures { (result ≡ item_count query.now) × (result ≤ 765) }
{
    order_count(query) + dependencies(query) as u16
}

// The head of item i.
pub fn head(query: &[u8], i: u16) -> u8
    ensures { result ≡ head_at query.now i }
{
    byte(query, limits::QUERY_SIZES + i as usize)
}

// The four bytes of item i, as many of them as are there.
pub fn body(query: &[u8], i: u16) -> Order
    ensures { OrderIs result (body_at query.now i) }
{
    let at = limits::QUERY_SIZES + item_count(query) as usize + i as usize * limits::BODY_WIDTH;
    Order {
        entries: [
            byte(query, at),
            byte(query, at + 1),
            byte(query, at + 2),
            byte(query, at + 3),
        ],
        len: query.len().saturating_sub(at).min(limits::BODY_WIDTH),
    }
}

// The order that item i says.
pub fn order_at(query: &[u8], i: u16) -> Order
    ensures { OrderIs result (order_at query.now i) }
{
    body(query, i).front(head(query, i) as usize)
}
