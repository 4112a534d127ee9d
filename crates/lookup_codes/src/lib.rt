// Lookups in a table's bytes, whatever they are, as one number: the refusal's number times 65,536 plus the state that was moved to, or 1 for held and 0 for not held; 0 on refusal.
#![tactic(auto)]

ghost use Rattle.std.specs.Prelude.{◌≡◌};
ghost use Rattle.theory.specs.Table.{enter, take_in, ask};
ghost use Rattle.answer_codes.specs.Codes.{answer_code};
ghost use Rattle.formed_lookup.specs.Answers.{asked_answer};
ghost use Rattle.lookup.specs.Answers.{moved_answer};

use answer_codes::answered;
use handles::{OrderHandle, SetHandle, StateNumber};
use lookup::Mark;
use numbers::refusals::Refusal;

// An entry or a take: the state that was moved to, or the refusal.
fn moved(answer: Result<Mark, Refusal>) -> u32
    ensures { result ≡ answer_code (moved_answer answer) }
{
    answered(answer.map(|mark| mark.state.0 as usize))
}

// An ask: 1 held, 0 not held, or the refusal.
fn asked(answer: Result<bool, Refusal>) -> u32
    ensures { result ≡ answer_code (asked_answer answer) }
{
    answered(answer.map(|held| held as usize))
}

// Enter by a produced order: 1, 2, 1, then 10, then 11.
pub fn enter(table: &[u8], order: OrderHandle) -> u32
    ensures { result ≡ answer_code (enter table.now order.0) }
{
    moved(lookup::enter(table, order))
}

// Take a set in a state: 1, 2, 1, then 10, then 11.
pub fn take(table: &[u8], state: StateNumber, set: SetHandle) -> u32
    ensures { result ≡ answer_code (take_in table.now state.0 set.0) }
{
    let mark = Mark { state };
    moved(mark.take(table, set))
}

// Ask whether an interesting order is held in a state: 1, 2, 1, then 10.
pub fn ask(table: &[u8], state: StateNumber, order: OrderHandle) -> u32
    ensures { result ≡ answer_code (ask table.now state.0 order.0) }
{
    let mark = Mark { state };
    asked(mark.ask(table, order))
}
