// The query reader: what a query's bytes say behind its sizes. Every function takes any bytes, in any number.
#![tactic(auto)]

pub mod bytes;
mod checked;

ghost use Rattle.std.specs.Prelude.{◌≡◌, ◌+◌};
ghost use Rattle.theory.specs.Query.{order_count, order_at, rule_of, dependency_at};
ghost use Rattle.orders.specs.Orders.{order_of, OrderIs, rule_is, dependency_is};

pub use checked::CheckedQuery;
use handles::OrderHandle;
use numbers::limits;
use orders::{Order, Rule};

// Interesting order i: the produced ones come first, then the tested ones.
pub fn order(query: &[u8], i: OrderHandle) -> Order
    ensures { OrderIs result (order_at query.now i.0) }
{
    bytes::order_at(query, i.0 as u16)
}

// What a dependency of a kind says in its four bytes.
fn rule(kind: u8, body: Order) -> Rule
    ensures { rule_is result ≡ rule_of kind (order_of body) }
{
    let a = body.entry(0);
    let b = body.entry(1);
    if kind == limits::EQUAL_KIND {
        return Rule::Equal { a, b };
    }
    let c = body.entry(2);
    let d = body.entry(3);
    let count = body.front(kind as usize).length() as u8;
    Rule::Fix { count, a, b, c, d }
}

// Dependency i, counted from 0: the item i behind the interesting orders.
pub fn dependency(query: &[u8], i: u8) -> orders::Dependency
    ensures { dependency_is result ≡ dependency_at query.now (order_count query.now + i) }
{
    let at = bytes::order_count(query) + i as u16;
    let head = bytes::head(query, at);
    let said = rule(head / limits::KIND_UNIT, bytes::body(query, at));
    orders::Dependency {
        set: head % limits::KIND_UNIT,
        rule: said,
    }
}
