// A supplier's table on trial: the query's own checks and table, then the supplier's table beside it.
#![tactic(auto)]

ghost use Rattle.std.specs.Prelude.{◌≡◌, length};
ghost use Rattle.theory.specs.Scratch.{joint_states_length};
ghost use Rattle.theory.specs.Query.{read_query};
ghost use Rattle.theory.specs.Build.{construct, scratch_after, zeroed};
ghost use Rattle.theory.specs.Verification.{mismatch_refusal, verified_with, verify_refusal};
ghost use Rattle.numbers.specs.Refusals.{refusal_in};
ghost use Rattle.verify.specs.Own.{Own};

use joint_states::TwoTables;
use numbers::limits::LONGEST_TABLE;
use numbers::refusals::Refusal;
use numbers::scratch::JOINT_STATES_LENGTH;

// The check 12: P, T or S differ from the query's.
fn check_sizes(query: &[u8], table: &[u8]) -> Result<(), Refusal>
    ensures { refusal_in result ≡ mismatch_refusal (read_query query.now) table.now }
{
    if table::produced(table) == query_sizes::produced(query) as usize
        && table::tested(table) == query_sizes::tested(query) as usize
        && table::sets(table) == query_sizes::sets(query) as usize
    {
        Ok(())
    } else {
        Err(Refusal::Mismatch)
    }
}

// The checks of a supplier's table beside the query's own: its form, then 12, then 13.
fn supplied(query: &[u8], ours: &[u8], table: &[u8], reached: &mut [u8]) -> Result<(), Refusal>
    requires { Own query.now ours.now × (length reached.old ≡ joint_states_length) }
    ensures { (refusal_in result ≡ verified_with (read_query query.now) (construct (read_query query.now)) table.now) × (length reached.new ≡ length reached.old) }
{
    table::check(table)?;
    check_sizes(query, table)?;
    if comparison::same_answers(&TwoTables::new(ours, table), reached) {
        Ok(())
    } else {
        Err(Refusal::Answer)
    }
}

// The same, and the memory of the joint states cleared behind it.
fn supplied_cleared(
    query: &[u8],
    ours: &[u8],
    table: &[u8],
    reached: &mut [u8],
) -> Result<(), Refusal>
    requires { Own query.now ours.now × (length reached.old ≡ joint_states_length) }
    ensures { (refusal_in result ≡ verified_with (read_query query.now) (construct (read_query query.now)) table.now) × (reached.new ≡ zeroed (length reached.old) reached.old) }
{
    let outcome = supplied(query, ours, table, reached);
    byte_rows::clear(reached);
    outcome
}

// Verify a supplier's table against a query, whatever their bytes and whatever is lent: the query's checks 1 to 6, 9 for scratch, 8; then the table's form,
// 12 and 13. The table is accepted where none refuses.
pub fn verify(query: &[u8], table: &[u8], scratch: &mut [u8]) -> Result<(), Refusal>
    ensures value { refusal_in result ≡ verify_refusal query.now table.now (length scratch.old) }
    ensures scratch_after { scratch.new ≡ scratch_after query.now scratch.old }
{
    let mut ours = [0u8; LONGEST_TABLE];
    let length = builder::build(query, scratch, &mut ours)?;
    supplied_cleared(
        query,
        &ours[..length],
        table,
        &mut scratch[..JOINT_STATES_LENGTH],
    )
}
