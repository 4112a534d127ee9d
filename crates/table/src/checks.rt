// The check of a whole table: its form, then 11 for its starts, its successors and its held bytes.
ghost use Rattle.std.specs.Prelude.{◌≡◌, ◌<◌, IfOk};
ghost use Rattle.theory.specs.Refusals.{first_of};
ghost use Rattle.theory.specs.Table.{states_in, table_refusal, state_refusal, starts_refusal, successors_refusal, held_refusal};
ghost use Rattle.table.specs.Form.{run_refusal};
ghost use Rattle.numbers.specs.Refusals.{refusal_in};

use crate::formed::FormedTable;
use crate::sizes::{form, produced, sets, states, successors_base, tested};
use byte_rows::part;
use handles::StateNumber;
use numbers::refusals::Refusal;

// The check 11 of a state number.
fn check_state(table: &[u8], state: u8) -> Result<(), Refusal>
    ensures { refusal_in result ≡ state_refusal table.now state }
{
    if (state as usize) < states(table) {
        Ok(())
    } else {
        Err(Refusal::Row)
    }
}

// The check 11 of state numbers, one after the other.
fn check_run(table: &[u8], run: &[u8]) -> Result<(), Refusal>
    ensures { refusal_in result ≡ run_refusal table.now run.now }
{
    for state in run {
        check_state(table, *state)?;
    }
    Ok(())
}

// The check 11 of all starts.
fn check_starts(table: &FormedTable) -> Result<(), Refusal>
    ensures { refusal_in result ≡ starts_refusal table.now }
{
    check_run(table.bytes(), table.starts())
}

// The check 11 of all successors.
fn check_successors(table: &FormedTable) -> Result<(), Refusal>
    ensures { refusal_in result ≡ successors_refusal table.now }
{
    let bytes = table.bytes();
    let successors = part(bytes, successors_base(bytes), states(bytes) * sets(bytes));
    check_run(bytes, successors)
}

// The check 11 of a state's held bytes: no bit past P + T is set.
fn check_held(table: &FormedTable, state: StateNumber) -> Result<(), Refusal>
    requires { state.0 < states_in table.now }
    ensures { refusal_in result ≡ held_refusal table.now state.0 }
{
    let bytes = table.bytes();
    let orders = produced(bytes) + tested(bytes);
    if (table.held_word(state) as usize) < 1usize << orders {
        Ok(())
    } else {
        Err(Refusal::Row)
    }
}

// The check 11 of all held bytes.
fn check_held_rows(table: &FormedTable) -> Result<(), Refusal>
    ensures { refusal_in result ≡ first_of (held_refusal table.now) (states_in table.now) }
{
    for state in 0..states(table.bytes()) as u8 {
        check_held(table, StateNumber(state))?;
    }
    Ok(())
}

// The table check: 1, 2, 1, then 11.
pub fn check(table: &[u8]) -> Result<FormedTable<'_>, Refusal>
    ensures refusal { refusal_in result ≡ table_refusal table.now }
    ensures bytes { IfOk result (λ checked. checked ≡ table.now) }
{
    let formed = form(table)?;
    check_starts(&formed)?;
    check_successors(&formed)?;
    check_held_rows(&formed)?;
    Ok(formed)
}
