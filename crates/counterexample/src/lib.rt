// Two rows that show why a sort is needed: they stand in a produced order, obey the dependencies of a choice of sets in force and do not stand in an interesting order. Bit i of
// a choice says whether set i is in force.
#![tactic(auto)]

ghost use Rattle.std.specs.Prelude.{◌≡◌, ◌*◌, ◌<◌, Ok};
ghost use Rattle.theory.specs.Tests.{Says};
ghost use Rattle.theory.specs.Query.{order_count, order_at, read_query};
ghost use Rattle.theory.specs.Counterexamples.{Named, Askable, Shows};
ghost use Rattle.rules_in_force.specs.Rules.{rules_at};
ghost use Rattle.settled.specs.Ends.{Ends};
ghost use Rattle.counterexample.specs.Answers.{found_answer, ListedFound};

use arrayvec::ArrayVec;
use closure::PreparedRules;
use handles::{OrderHandle, SetChoice};
use numbers::limits::MASK_BITS;
use numbers::refusals::Refusal;
use query::CheckedQuery;
use settled::{Stop, test};

// Whether the produced order, the interesting order and every bit of the choice are in the query.
fn named(query: &CheckedQuery, produced: OrderHandle, sets: SetChoice, order: OrderHandle) -> bool
    ensures { Says (Named (read_query query.now) produced.0 sets.0 order.0) result }
{
    let sizes = query.sizes();
    if sizes.produced <= produced.0 as usize {
        return false;
    }
    if sizes.orders() <= order.0 as usize {
        return false;
    }
    (sets.0 as usize) < sizes.choices()
}

// The closure test of two of the query's orders, under the choice.
fn tested(
    query: &CheckedQuery,
    produced: OrderHandle,
    sets: SetChoice,
    order: OrderHandle,
) -> Option<Stop>
    requires { (produced.0 < order_count query.now) × (order.0 < order_count query.now) }
    ensures { Ends (rules_at query.now sets.0) (order_at query.now produced.0) (order_at query.now order.0) result }
{
    let mut rules = PreparedRules {
        arrows: ArrayVec::new(),
        start: 0,
        classes: [0; MASK_BITS],
    };
    preparation::prepare(query, sets, &mut rules);
    let bytes = query.bytes();
    let p = query::order(bytes, produced);
    let o = query::order(bytes, order);
    test::test(&rules, p, o)
}

// Two rows where the test stops, and none where the order is held. Whether there are two.
fn show(
    query: &CheckedQuery,
    produced: OrderHandle,
    sets: SetChoice,
    order: OrderHandle,
    rows: &mut [u8],
) -> bool
    requires { Askable query.now produced.0 sets.0 order.0 rows.old }
    ensures { Shows query.now produced.0 sets.0 order.0 rows.old (found_answer (Ok result)) rows.new }
{
    let n = query_sizes::columns(query.bytes()) as usize;
    match tested(query, produced, sets, order) {
        Some(stop) => {
            two_rows::write(rows, n, stop);
            true
        }
        None => false,
    }
}

// Whatever the query's bytes, the numbers and the buffer: the query's checks 1 to 6, 10, 9 for the buffer; then two rows, row after row, or none, and whether there are two.
// Nothing else is written.
pub fn find(
    query: &[u8],
    produced: OrderHandle,
    sets: SetChoice,
    order: OrderHandle,
    rows: &mut [u8],
) -> Result<bool, Refusal>
    ensures shows { Shows query.now produced.0 sets.0 order.0 rows.old (found_answer result) rows.new }
    ensures listed_found { ListedFound result }
{
    let checked = query_check::check(query)?;
    if !named(&checked, produced, sets, order) {
        return Err(Refusal::Handle);
    }
    if rows.len() < 2 * query_sizes::columns(query) as usize {
        return Err(Refusal::Space);
    }
    Ok(show(&checked, produced, sets, order, rows))
}
