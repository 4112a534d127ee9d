// What a table's bytes, whatever they are, have of a state, as one number: the refusal's number times 65,536 plus the state's word or the offset of its row, which is 0 on refusal.
#![tactic(auto)]

ghost use Rattle.std.specs.Prelude.{◌≡◌};
ghost use Rattle.theory.specs.Table.{word};
ghost use Rattle.answer_codes.specs.Codes.{answer_code};
ghost use Rattle.read_codes.specs.Codes.{row_code};

use answer_codes::answered;
use handles::StateNumber;
use lookup::Mark;

// Hand back a state's word: 1, 2, 1, then 10.
pub fn word(table: &[u8], state: StateNumber) -> u32
    ensures { result ≡ answer_code (word table.now state.0) }
{
    let mark = Mark { state };
    answered(mark.word(table).map(|word| word as usize))
}

// A state's successor row: its offset in the table.
pub fn row(table: &[u8], state: StateNumber) -> u32
    ensures { result ≡ row_code table.now state.0 }
{
    answered(lookup::row_offset(table, state))
}
