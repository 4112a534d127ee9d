// A query's table is built, and a list of lookups, lent as bytes, is answered in place on the table that was written.
#![tactic(auto)]

ghost use Rattle.std.specs.Prelude.{◌≡◌, ◌+◌, ◌<◌, length};
ghost use Rattle.theory.specs.Build.{outcome, output_after, scratch_after};
ghost use Rattle.builder.specs.Built.{built_answer};
ghost use Rattle.numbers.specs.Refusals.{answer_in};
ghost use Rattle.replay.specs.Replay.{lookup_of, answer_to, state_after, replayed, lookups_after, Modelled};
ghost use Rattle.replay.specs.Answered.{lookup_is, lookup_at, answered_at};

use handles::{OrderHandle, SetHandle, StateNumber};
use lookup::Mark;
use numbers::refusals::Refusal;

// A lookup of a list: an entry by a produced order, a set to take, or an ask for an interesting order.
#[derive(Clone, Copy)]
enum Lookup {
    Enter(OrderHandle),
    Take(SetHandle),
    Ask(OrderHandle),
}

// The lookup of that kind and handle.
fn lookup_by(kind: u8, handle: u8) -> Lookup
    ensures { lookup_is result ≡ lookup_of kind handle }
{
    match kind {
        0 => Lookup::Enter(OrderHandle(handle)),
        1 => Lookup::Take(SetHandle(handle)),
        _ => Lookup::Ask(OrderHandle(handle)),
    }
}

// One lookup from the mark: the state that was moved to, or whether an order is held. The mark goes on where an entry or a take is granted.
fn look_up(table: &[u8], mark: &mut Mark, lookup: Lookup) -> Result<u8, Refusal>
    ensures answer { answer_in result ≡ answer_to table.now mark.old.state.0 (lookup_is lookup) }
    ensures mark { mark.new.state.0 ≡ state_after table.now mark.old.state.0 (lookup_is lookup) }
{
    match lookup {
        Lookup::Enter(order) => {
            *mark = lookup::enter(table, order)?;
            Ok(mark.state.0)
        }
        Lookup::Take(set) => {
            *mark = mark.take(table, set)?;
            Ok(mark.state.0)
        }
        Lookup::Ask(order) => Ok(u8::from(mark.ask(table, order)?)),
    }
}

// The lookup at place i, answered in its two bytes, the refusal's number and the value; the mark is that for the lookups after it.
fn answer(table: &[u8], mark: &mut Mark, lookups: &mut [u8], i: usize)
    requires { i + 1 < length lookups.old }
    ensures state_value { mark.new.state.0 ≡ state_after table.now mark.old.state.0 (lookup_at lookups.old i) }
    ensures lookups_after { lookups.new ≡ answered_at table.now mark.old.state.0 lookups.old i }
{
    let lookup = lookup_by(lookups[i], lookups[i + 1]);
    let (refusal, value) = match look_up(table, mark, lookup) {
        Ok(value) => (0, value),
        Err(refusal) => (u8::from(refusal), 0),
    };
    lookups[i] = refusal;
    lookups[i + 1] = value;
}

// All lookups of the list, one after the other, from state 0.
fn run(table: &[u8], lookups: &mut [u8])
    ensures { lookups.new ≡ replayed table.now 0 lookups.old }
{
    let mut mark = Mark {
        state: StateNumber(0),
    };
    for i in 0..lookups.len() / 2 {
        answer(table, &mut mark, lookups, 2 * i);
    }
}

// Build a query's table, whatever the bytes and whatever is lent, and answer the lookups on the table that was written.
pub fn replay(
    query: &[u8],
    scratch: &mut [u8],
    output: &mut [u8],
    lookups: &mut [u8],
) -> Result<usize, Refusal>
    ensures value { answer_in result ≡ built_answer (outcome query.now (length scratch.old) (length output.old)) }
    ensures output_after { output.new ≡ output_after query.now (length scratch.old) output.old }
    ensures scratch_after { scratch.new ≡ scratch_after query.now scratch.old }
    ensures lookups_after { lookups.new ≡ lookups_after (outcome query.now (length scratch.old) (length output.old)) lookups.old }
    ensures modelled { Modelled query.now (length scratch.old) (length output.old) lookups.old lookups.new }
{
    let length = builder::build(query, scratch, output)?;
    run(&output[..length], lookups);
    Ok(length)
}
