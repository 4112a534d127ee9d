// An order or a dependency of whatever bytes, after the checks of the query; and an answer as one number: the refusal's number times 2 to the 48 plus what the item says, which is 0 on refusal.
#![tactic(auto)]

ghost use Rattle.std.specs.Prelude.{◌≡◌, ◌<◌};
ghost use Rattle.numbers.specs.Refusals.{answer_in};
ghost use Rattle.query_items.specs.Items.{item_unit, item_code, order_item, dependency_item};

use handles::OrderHandle;
use numbers::limits::ITEM_REFUSAL_UNIT;
use numbers::refusals::Refusal;

// Interesting order i of whatever bytes: the query's checks 1 to 6, then 10, then the order.
pub fn order(query: &[u8], i: OrderHandle) -> Result<u64, Refusal>
    ensures answer { answer_in result ≡ order_item query.now i.0 }
    ensures small { (answer_in result).value < item_unit }
{
    query_check::check(query)?;
    if query::bytes::order_count(query) <= i.0 as u16 {
        return Err(Refusal::Handle);
    }
    Ok(item_values::order_value(query, i))
}

// Dependency i of whatever bytes: the query's checks 1 to 6, then 10, then the dependency.
pub fn dependency(query: &[u8], i: u8) -> Result<u64, Refusal>
    ensures answer { answer_in result ≡ dependency_item query.now i }
    ensures small { (answer_in result).value < item_unit }
{
    query_check::check(query)?;
    if query_sizes::dependencies(query) <= i {
        return Err(Refusal::Handle);
    }
    Ok(item_values::dependency_value(query, i))
}

// An answer as one number.
pub fn coded(answer: Result<u64, Refusal>) -> u64
    requires { (answer_in answer).value < item_unit }
    ensures { result ≡ item_code (answer_in answer) }
{
    match answer {
        Ok(value) => value,
        Err(refusal) => u8::from(refusal) as u64 * ITEM_REFUSAL_UNIT,
    }
}
