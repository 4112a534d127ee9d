// The functions for C and Rust. Each returns the refusal's number times a unit plus a value, which is 0 on refusal. The unit is 65,536, and 2 to the 48 where an item of a query
// is read.
#![tactic(auto)]

ghost use Rattle.std.specs.Prelude.{◌≡◌, length};
ghost use Rattle.theory.specs.Query.{query_refusal};
ghost use Rattle.theory.specs.Table.{table_refusal, enter, take_in, ask, word};
ghost use Rattle.theory.specs.Build.{outcome, output_after, scratch_after};
ghost use Rattle.theory.specs.Verification.{verify_refusal};
ghost use Rattle.theory.specs.Steps.{begin_refusal, begun_scratch, continued, continued_output, continued_scratch};
ghost use Rattle.numbers.specs.Refusals.{answer_in};
ghost use Rattle.steps.specs.Continued.{step_answer};
ghost use Rattle.answer_codes.specs.Codes.{answer_code, refused_code};
ghost use Rattle.theory.specs.Listing.{listing};
ghost use Rattle.query_items.specs.Items.{order_item_code, dependency_item_code};
ghost use Rattle.read_codes.specs.Codes.{row_code};
ghost use Rattle.replay.specs.Replay.{lookups_after, Modelled};
ghost use Rattle.query_listing.specs.Listed.{list_refusal, text_after};
ghost use Rattle.order_tables.specs.Codes.{build_code, continue_code, list_code, ShownCode};

use answer_codes::{answered, checked};
use handles::{OrderHandle, SetChoice, SetHandle, StateNumber};
use numbers::refusals::Refusal;

// Build a query's table: its length.
#[unsafe(no_mangle)]
pub extern "C" fn order_table_build(query: &[u8], scratch: &mut [u8], output: &mut [u8]) -> u32
    ensures value { result ≡ build_code (outcome query.now (length scratch.old) (length output.old)) }
    ensures output_after { output.new ≡ output_after query.now (length scratch.old) output.old }
    ensures scratch_after { scratch.new ≡ scratch_after query.now scratch.old }
{
    answered(builder::build(query, scratch, output))
}

// Begin a build that is continued by calls.
#[unsafe(no_mangle)]
pub extern "C" fn order_table_begin(query: &[u8], scratch: &mut [u8]) -> u32
    ensures value { result ≡ refused_code (begin_refusal query.now (length scratch.old)) }
    ensures scratch_after { scratch.new ≡ begun_scratch query.now scratch.old }
{
    checked(steps::begin(query, scratch))
}

// What a continuing call answers as one value: 0 where a pair was settled.
fn continued_value(answer: Result<Option<usize>, Refusal>) -> Result<usize, Refusal>
    ensures { answer_in result ≡ step_answer answer }
{
    match answer {
        Ok(None) => Ok(0),
        Ok(Some(length)) => Ok(length),
        Err(refusal) => Err(refusal),
    }
}

// Continue it: 0 where a pair was settled, the table's length where the build is done.
#[unsafe(no_mangle)]
pub extern "C" fn order_table_continue(query: &[u8], scratch: &mut [u8], output: &mut [u8]) -> u32
    ensures value { result ≡ continue_code (continued query.now scratch.old (length output.old)) }
    ensures output_after { output.new ≡ continued_output query.now scratch.old output.old }
    ensures scratch_after { scratch.new ≡ continued_scratch query.now scratch.old }
{
    answered(continued_value(steps::go_on(query, scratch, output)))
}

// Build a query's table and answer a list of lookups on it in place, two bytes for each: the table's length.
#[unsafe(no_mangle)]
pub extern "C" fn order_table_replay(
    query: &[u8],
    scratch: &mut [u8],
    output: &mut [u8],
    lookups: &mut [u8],
) -> u32
    ensures value { result ≡ build_code (outcome query.now (length scratch.old) (length output.old)) }
    ensures output_after { output.new ≡ output_after query.now (length scratch.old) output.old }
    ensures scratch_after { scratch.new ≡ scratch_after query.now scratch.old }
    ensures lookups_after { lookups.new ≡ lookups_after (outcome query.now (length scratch.old) (length output.old)) lookups.old }
    ensures modelled { Modelled query.now (length scratch.old) (length output.old) lookups.old lookups.new }
{
    answered(replay::replay(query, scratch, output, lookups))
}

// List a query: the listing's length.
#[unsafe(no_mangle)]
pub extern "C" fn order_table_list(query: &[u8], scratch: &mut [u8], text: &mut [u8]) -> u32
    ensures value { result ≡ list_code query.now (length scratch.old) (length text.old) }
    ensures text_after { text.new ≡ text_after (listing query.now) (list_refusal query.now (length scratch.old) (length text.old)) text.old }
    ensures scratch_after { scratch.new ≡ scratch_after query.now scratch.old }
{
    answered(query_listing::list(query, scratch, text))
}

// The table check.
#[unsafe(no_mangle)]
pub extern "C" fn order_table_check(table: &[u8]) -> u32
    ensures { result ≡ refused_code (table_refusal table.now) }
{
    checked(table::check(table))
}

// Verify a supplier's table against a query.
#[unsafe(no_mangle)]
pub extern "C" fn order_table_verify(query: &[u8], table: &[u8], scratch: &mut [u8]) -> u32
    ensures value { result ≡ refused_code (verify_refusal query.now table.now (length scratch.old)) }
    ensures scratch_after { scratch.new ≡ scratch_after query.now scratch.old }
{
    checked(verify::verify(query, table, scratch))
}

// Enter by a produced order: the state.
#[unsafe(no_mangle)]
pub extern "C" fn order_table_enter(table: &[u8], produced: u8) -> u32
    ensures { result ≡ answer_code (enter table.now produced) }
{
    lookup_codes::enter(table, OrderHandle(produced))
}

// Take a set in a state: the next state.
#[unsafe(no_mangle)]
pub extern "C" fn order_table_take(table: &[u8], state: u8, set: u8) -> u32
    ensures { result ≡ answer_code (take_in table.now state set) }
{
    lookup_codes::take(table, StateNumber(state), SetHandle(set))
}

// Ask whether an interesting order is held in a state: 1 held, 0 not held.
#[unsafe(no_mangle)]
pub extern "C" fn order_table_ask(table: &[u8], state: u8, order: u8) -> u32
    ensures { result ≡ answer_code (ask table.now state order) }
{
    lookup_codes::ask(table, StateNumber(state), OrderHandle(order))
}

// Hand back a state's held word: bit i for interesting order i.
#[unsafe(no_mangle)]
pub extern "C" fn order_table_word(table: &[u8], state: u8) -> u32
    ensures { result ≡ answer_code (word table.now state) }
{
    read_codes::word(table, StateNumber(state))
}

// A state's successor row: its offset in the table.
#[unsafe(no_mangle)]
pub extern "C" fn order_table_row(table: &[u8], state: u8) -> u32
    ensures { result ≡ row_code table.now state }
{
    read_codes::row(table, StateNumber(state))
}

// Show why a sort is needed: 1 where two rows that break the order were written, 0 where there are none.
#[unsafe(no_mangle)]
pub extern "C" fn order_query_counterexample(
    query: &[u8],
    produced: u8,
    sets: u8,
    order: u8,
    rows: &mut [u8],
) -> u32
    ensures { ShownCode query.now produced sets order rows.old rows.new result }
{
    let found = counterexample::find(
        query,
        OrderHandle(produced),
        SetChoice(sets),
        OrderHandle(order),
        rows,
    );
    answered(found.map(usize::from))
}

// Checks 1 to 6 of a query.
#[unsafe(no_mangle)]
pub extern "C" fn order_query_check(query: &[u8]) -> u32
    ensures { result ≡ refused_code (query_refusal query.now) }
{
    checked(query_check::check(query))
}

// Interesting order i of whatever bytes: the query's checks 1 to 6, then 10, then the order.
#[unsafe(no_mangle)]
pub extern "C" fn order_query_order(query: &[u8], i: u8) -> u64
    ensures { result ≡ order_item_code query.now i }
{
    query_items::coded(query_items::order(query, OrderHandle(i)))
}

// Dependency i of whatever bytes: the query's checks 1 to 6, then 10, then the dependency.
#[unsafe(no_mangle)]
pub extern "C" fn order_query_dependency(query: &[u8], i: u8) -> u64
    ensures { result ≡ dependency_item_code query.now i }
{
    query_items::coded(query_items::dependency(query, i))
}
