// What an item of a query says, as one number: an order's length and entries, or a dependency's set, kind and columns, a byte each. Every function takes any bytes.
#![tactic(auto)]

ghost use Rattle.std.specs.Prelude.{◌≡◌, ◌+◌, ◌≤◌};
ghost use Rattle.theory.specs.Limits.{equal_kind};
ghost use Rattle.theory.specs.Query.{order_count, order_at, dependency_at};
ghost use Rattle.orders.specs.Orders.{order_of, rule_is};
ghost use Rattle.item_values.specs.Values.{bytes_code, order_code, kind_code, rule_columns, dependency_code};

use handles::OrderHandle;
use numbers::limits::{BODY_WIDTH, EQUAL_KIND};
use orders::{Order, Rule};

// Up to four bytes as one number, the first lowest.
fn bytes(o: Order) -> u32
    ensures { result ≡ bytes_code (order_of o) }
{
    u32::from_le_bytes([o.entry(0), o.entry(1), o.entry(2), o.entry(3)])
}

// What item i says as an order: its length, then its entries, a byte each, as the query has them.
pub fn order_value(query: &[u8], i: OrderHandle) -> u64
    ensures { result ≡ order_code (order_at query.now i.0) }
{
    let o = query::order(query, i);
    o.length() as u64 + 256 * bytes(o) as u64
}

// A rule's kind: of a fix how many left columns it has, which are at most four.
fn kind(rule: Rule) -> usize
    ensures { (result ≡ kind_code (rule_is rule)) × (result ≤ equal_kind) }
{
    match rule {
        Rule::Fix { count, .. } => BODY_WIDTH.min(count as usize),
        Rule::Equal { .. } => EQUAL_KIND as usize,
    }
}

// A rule's columns, as an order: of a fix the left ones, then the right one.
fn named(rule: Rule) -> Order
    ensures { bytes_code (order_of result) ≡ bytes_code (rule_columns (rule_is rule)) }
{
    match rule {
        Rule::Fix { count, a, b, c, d } => Order {
            entries: [a, b, c, d],
            len: count as usize + 1,
        },
        Rule::Equal { a, b } => Order {
            entries: [a, b, 0, 0],
            len: 2,
        },
    }
}

// What the item i behind the orders says as a dependency: its set, its kind, then its columns, a byte each.
pub fn dependency_value(query: &[u8], i: u8) -> u64
    ensures { result ≡ dependency_code (dependency_at query.now (order_count query.now + i)) }
{
    let d = query::dependency(query, i);
    let rule = d.rule;
    d.set as u64 + 256 * kind(rule) as u64 + 65536 * bytes(named(rule)) as u64
}
