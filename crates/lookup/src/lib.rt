// Lookups in a table's bytes, whatever they are: each answers in constant time or refuses, and knows nothing of the query.
#![tactic(auto)]

ghost use Rattle.std.specs.Prelude.{◌≡◌, ◌+◌, ◌*◌, ◌<◌, IfOk, OnOk};
ghost use Rattle.theory.specs.Limits.{longest_table};
ghost use Rattle.theory.specs.Table.{states_in, sets_in, successors_base, enter, take_in, ask, word, row, read_refusal};
ghost use Rattle.numbers.specs.Refusals.{refusal_in};
ghost use Rattle.formed_lookup.specs.Answers.{asked_answer, ListedAsk};
ghost use Rattle.lookup.specs.Answers.{moved_answer, word_answer, row_answer, ListedMove, ListedWord};

use handles::{OrderHandle, SetHandle, StateNumber};
use numbers::limits::TABLE_SIZES;
use numbers::refusals::Refusal;
use table::FormedTable;

// What a plan node carries: one state number.
#[derive(Clone, Copy)]
pub struct Mark {
    pub state: StateNumber,
}

// Enter by a produced order: 1, 2, 1, then 10, then 11.
pub fn enter(table: &[u8], order: OrderHandle) -> Result<Mark, Refusal>
    ensures result_value { moved_answer result ≡ enter table.now order.0 }
    ensures listed_move { ListedMove result }
{
    let formed = table::form(table)?;
    let state = formed_lookup::enter(&formed, order)?;
    Ok(Mark { state })
}

// The lookups of a plan node are methods of its mark, by value.
impl Mark {
    // Take a set: 1, 2, 1, then 10, then 11.
    pub fn take(self, table: &[u8], set: SetHandle) -> Result<Mark, Refusal>
        ensures result_value { moved_answer result ≡ take_in table.now self.state.0 set.0 }
        ensures listed_move { ListedMove result }
    {
        let formed = table::form(table)?;
        let state = formed_lookup::take(&formed, self.state, set)?;
        Ok(Mark { state })
    }

    // Ask whether an interesting order is held: 1, 2, 1, then 10.
    pub fn ask(self, table: &[u8], order: OrderHandle) -> Result<bool, Refusal>
        ensures result_value { asked_answer result ≡ ask table.now self.state.0 order.0 }
        ensures listed_ask { ListedAsk result }
    {
        let formed = table::form(table)?;
        formed_lookup::ask(&formed, self.state, order)
    }

    // Hand back the word, as it is in the table: 1, 2, 1, then 10.
    pub fn word(self, table: &[u8]) -> Result<u16, Refusal>
        ensures result_value { word_answer result ≡ word table.now self.state.0 }
        ensures listed_word { ListedWord result }
    {
        let formed = check_state(table, self.state)?;
        Ok(formed.held_word(self.state))
    }
}

// The check of a table's form and of a state, where something of the state is read as it is in the table: 1, 2, 1, then 10.
pub fn check_state(table: &[u8], state: StateNumber) -> Result<FormedTable<'_>, Refusal>
    ensures refusal { refusal_in result ≡ read_refusal table.now state.0 }
    ensures bytes { IfOk result (λ formed. formed ≡ table.now) }
    ensures state { OnOk result (state.0 < states_in table.now) }
{
    let formed = table::form(table)?;
    if (state.0 as usize) < table::states(table) {
        Ok(formed)
    } else {
        Err(Refusal::Handle)
    }
}

// Hand back a state's successor row, as it is in the lent table.
pub fn row_of(table: &[u8], state: StateNumber) -> Result<&[u8], Refusal>
    ensures refusal { refusal_in result ≡ read_refusal table.now state.0 }
    ensures row { row_answer result ≡ row table.now state.0 }
{
    let formed = check_state(table, state)?;
    Ok(formed.successors(state))
}

// The successor row as that part of the lent table; the empty part on refusal.
pub fn row_part(table: &[u8], state: StateNumber) -> &[u8]
    ensures { result.now ≡ row table.now state.0 }
{
    row_of(table, state).unwrap_or(&table[..0])
}

// Where a state's successor row begins in the table.
pub fn row_offset(table: &[u8], state: StateNumber) -> Result<usize, Refusal>
    ensures refusal { refusal_in result ≡ read_refusal table.now state.0 }
    ensures offset { IfOk result (λ offset. offset ≡ successors_base table.now + state.0 * sets_in table.now) }
    ensures within { IfOk result (λ offset. offset < longest_table) }
{
    check_state(table, state)?;
    Ok(TABLE_SIZES + table::produced(table) + state.0 as usize * table::sets(table))
}
