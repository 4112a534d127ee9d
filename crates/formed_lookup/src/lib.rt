// Lookups in a table whose form passed, for callers that look up more than once in the same bytes. A number that is not in the table is refused here. Everyone else calls the
// crates `lookup` and `lookup_codes`, which check the form each time.
#![tactic(auto)]

ghost use Rattle.std.specs.Prelude.{◌≡◌};
ghost use Rattle.theory.specs.Table.{grant_state, enter, take_in, ask};
ghost use Rattle.formed_lookup.specs.Answers.{moved_answer, asked_answer, ListedAsk};

use handles::{OrderHandle, SetHandle, StateNumber};
use numbers::refusals::Refusal;
use table::FormedTable;

// A state that was read from the table: 11 where it is not below Q.
fn granted(table: &FormedTable, state: u8) -> Result<StateNumber, Refusal>
    ensures { moved_answer result ≡ grant_state table.now state }
{
    if (state as usize) < table::states(table.bytes()) {
        Ok(StateNumber(state))
    } else {
        Err(Refusal::Row)
    }
}

// Enter by a produced order: 10, then 11.
pub fn enter(table: &FormedTable, order: OrderHandle) -> Result<StateNumber, Refusal>
    ensures { moved_answer result ≡ enter table.now order.0 }
{
    let Some(start) = table.starts().get(order.0 as usize) else {
        return Err(Refusal::Handle);
    };
    granted(table, *start)
}

// Take a set in a state: 10, then 11.
pub fn take(table: &FormedTable, state: StateNumber, set: SetHandle) -> Result<StateNumber, Refusal>
    ensures { moved_answer result ≡ take_in table.now state.0 set.0 }
{
    if table::states(table.bytes()) <= state.0 as usize {
        return Err(Refusal::Handle);
    }
    let Some(successor) = table.successors(state).get(set.0 as usize) else {
        return Err(Refusal::Handle);
    };
    granted(table, *successor)
}

// Ask whether an interesting order is held in a state: 10, else the order's bit of the state's word.
pub fn ask(table: &FormedTable, state: StateNumber, order: OrderHandle) -> Result<bool, Refusal>
    ensures result_value { asked_answer result ≡ ask table.now state.0 order.0 }
    ensures listed_ask { ListedAsk result }
{
    let bytes = table.bytes();
    if table::states(bytes) <= state.0 as usize {
        return Err(Refusal::Handle);
    }
    let i = order.0 as usize;
    if table::produced(bytes) + table::tested(bytes) <= i {
        return Err(Refusal::Handle);
    }
    Ok((table.held_word(state) >> i) % 2 == 1)
}
