// The sizes of a table, and the check of its form.
ghost use Rattle.std.specs.Prelude.{◌≡◌, ◌<◌, length, IfOk};
ghost use Rattle.theory.specs.Table.{states_in, produced_in, tested_in, sets_in, successors_base, held_base, form_refusal};
ghost use Rattle.numbers.specs.Refusals.{refusal_in};
ghost use Rattle.table.specs.Form.{table_sizes_refusal};

use crate::formed::FormedTable;
use byte_rows::byte;
use numbers::limits;
use numbers::refusals::Refusal;

// The sizes Q, P, T, S. Each has a reader of its own, since a name tells more than the place of a byte.
pub fn states(table: &[u8]) -> usize
    ensures { (result ≡ states_in table.now) × (result < 256) }
{
    byte(table, 0) as usize
}

pub fn produced(table: &[u8]) -> usize
    ensures { (result ≡ produced_in table.now) × (result < 256) }
{
    byte(table, 1) as usize
}

pub fn tested(table: &[u8]) -> usize
    ensures { (result ≡ tested_in table.now) × (result < 256) }
{
    byte(table, 2) as usize
}

pub fn sets(table: &[u8]) -> usize
    ensures { (result ≡ sets_in table.now) × (result < 256) }
{
    byte(table, 3) as usize
}

// Where the successors begin, and where the held bytes do.
pub fn successors_base(table: &[u8]) -> usize
    ensures { (result ≡ successors_base table.now) × (result < 260) }
{
    limits::TABLE_SIZES + produced(table)
}

pub fn held_base(table: &[u8]) -> usize
    ensures { (result ≡ held_base table.now) × (result < 65536) }
{
    successors_base(table) + states(table) * sets(table)
}

// The checks 2 and 1 on the sizes and the number of bytes: a size outside its limits; a total other than the sizes imply.
fn check_sizes(table: &[u8]) -> Result<(), Refusal>
    ensures { refusal_in result ≡ table_sizes_refusal (states_in table.now) (produced_in table.now) (tested_in table.now) (sets_in table.now) (length table.now) }
{
    let q = states(table);
    let p = produced(table);
    let t = tested(table);
    let s = sets(table);
    if q < 1
        || limits::MAX_STATES < q
        || p < 1
        || (limits::MAX_PRODUCED as usize) < p
        || (limits::MAX_TESTED as usize) < t
        || (limits::MAX_SETS as usize) < s
    {
        return Err(Refusal::Size);
    }
    if table.len() == held_base(table) + q * limits::HELD_WIDTH {
        Ok(())
    } else {
        Err(Refusal::Length)
    }
}

// The form of a table: 1 for fewer than four bytes, then 2, then 1 for the total.
pub fn form(table: &[u8]) -> Result<FormedTable<'_>, Refusal>
    ensures refusal { refusal_in result ≡ form_refusal table.now }
    ensures bytes { IfOk result (λ formed. formed ≡ table.now) }
{
    if table.len() < limits::TABLE_SIZES {
        return Err(Refusal::Length);
    }
    check_sizes(table)?;
    Ok(FormedTable::new(table))
}
