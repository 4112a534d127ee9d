// The checks 3, 4, 5 of a query: its items one by one, each for its form, its columns and a repeat. Every function takes any bytes.
#![tactic(auto)]

ghost use Rattle.std.specs.Prelude.{◌≡◌, eqb, ltb, drop};
ghost use Rattle.theory.specs.Tests.{every, repeats};
ghost use Rattle.theory.specs.Refusals.{first_of};
ghost use Rattle.theory.specs.Limits.{unused_byte};
ghost use Rattle.theory.specs.Query.{item_count, used_by, body_refusal, order_refusal, dependency_refusal, item_refusal};
ghost use Rattle.numbers.specs.Refusals.{refusal_in};
ghost use Rattle.orders.specs.Orders.{order_of};

use numbers::limits;
use numbers::refusals::Refusal;
use orders::Order;
use query::bytes;

// Whether the bytes from place `used` on are all 255.
fn clear_from(body: Order, used: usize) -> bool
    ensures { result ≡ every (λ c. eqb c unused_byte) (drop used (order_of body)) }
{
    body.entries()
        .iter()
        .skip(used)
        .all(|byte| *byte == limits::UNUSED_BYTE)
}

// Whether each of the named columns is below `columns`.
fn below(named: Order, columns: u8) -> bool
    ensures { result ≡ every (λ c. ltb c columns) (order_of named) }
{
    named.entries().iter().all(|column| *column < columns)
}

// Whether one of the named columns stands twice.
fn repeated(named: Order) -> bool
    ensures { result ≡ repeats eqb (order_of named) }
{
    for i in 0..named.length() {
        if order_search::has(named.front(i), named.entry(i)) {
            return true;
        }
    }
    false
}

// An item's four bytes, of which `used` name columns.
fn check_body(columns: u8, used: usize, body: Order, named: Order) -> Result<(), Refusal>
    ensures { refusal_in result ≡ body_refusal columns used (order_of body) (order_of named) }
{
    if !clear_from(body, used) {
        return Err(Refusal::Item);
    }
    if !below(named, columns) {
        return Err(Refusal::Column);
    }
    if repeated(named) {
        return Err(Refusal::Repeat);
    }
    Ok(())
}

// An order, by its head and its four bytes. It names the columns of its entries.
fn check_order(columns: u8, head: u8, body: Order) -> Result<(), Refusal>
    ensures { refusal_in result ≡ order_refusal columns head (order_of body) }
{
    if limits::MAX_LENGTH < head {
        return Err(Refusal::Item);
    }
    let used = head as usize;
    let named = body.front(used).columns();
    check_body(columns, used, body, named)
}

// How many of its four bytes a dependency of a kind uses: the kind of a fix is its count of left columns.
fn used_by(kind: u8) -> usize
    ensures { result ≡ used_by kind }
{
    if kind == limits::EQUAL_KIND {
        2
    } else {
        kind as usize + 1
    }
}

// A dependency, by its head and its four bytes. They are the columns that it names, so 128 or more is none.
fn check_dependency(columns: u8, sets: u8, head: u8, body: Order) -> Result<(), Refusal>
    ensures { refusal_in result ≡ dependency_refusal columns sets head (order_of body) }
{
    let kind = head / limits::KIND_UNIT;
    let set = head % limits::KIND_UNIT;
    if limits::EQUAL_KIND < kind || sets <= set {
        return Err(Refusal::Item);
    }
    let used = used_by(kind);
    let named = body.front(used);
    check_body(columns, used, body, named)
}

// Item i: an order, or behind the orders a dependency.
fn check_item(query: &[u8], i: u16) -> Result<(), Refusal>
    ensures { refusal_in result ≡ item_refusal query.now i }
{
    let columns = query_sizes::columns(query);
    let head = bytes::head(query, i);
    let body = bytes::body(query, i);
    if i < bytes::order_count(query) {
        return check_order(columns, head, body);
    }
    check_dependency(columns, query_sizes::sets(query), head, body)
}

// The items one by one: the first that is refused, if one is.
pub fn check_items(query: &[u8]) -> Result<(), Refusal>
    ensures { refusal_in result ≡ first_of (item_refusal query.now) (item_count query.now) }
{
    for i in 0..bytes::item_count(query) {
        check_item(query, i)?;
    }
    Ok(())
}
