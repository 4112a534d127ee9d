// The builder: from a query's bytes to its table's.
#![tactic(auto)]

mod write;

ghost use Rattle.std.specs.Prelude.{◌≡◌, ◌≤◌, length};
ghost use Rattle.theory.specs.Query.{read_query};
ghost use Rattle.theory.specs.Table.{Table};
ghost use Rattle.theory.specs.Scratch.{work_length};
ghost use Rattle.theory.specs.Build.{table, limited, construct, delivered, outcome, output_after, scratch_after, zeroed};
ghost use Rattle.theory.specs.Steps.{merged_table};
ghost use Rattle.numbers.specs.Refusals.{answer_in};
ghost use Rattle.builder.specs.Built.{built_answer, Done, Holding};

use numbers::limits::SCRATCH_LENGTH;
use numbers::refusals::Refusal;
use query::CheckedQuery;
use query_sizes::Sizes;

// The table of q states that lies in the scratch goes into the output, or 9 where that is shorter. The table's length.
fn deliver(work: &[u8], q: usize, sizes: Sizes, output: &mut [u8]) -> Result<usize, Refusal>
    requires { (contents : Table) × Holding contents work.now q sizes.produced sizes.tested sizes.sets }
    ensures { (contents : Table) → Holding contents work.now q sizes.produced sizes.tested sizes.sets → Done (delivered (table contents) (length output.old)) output.old output.new result }
{
    let size = write::size(q, sizes);
    if output.len() < size {
        return Err(Refusal::Space);
    }
    write::write(work, q, sizes, output);
    Ok(size)
}

// The table of the held words that lie in the scratch, whatever they are, goes into the output; or 8, or 9 where that is shorter.
fn merge_into(query: &CheckedQuery, work: &mut [u8], output: &mut [u8]) -> Result<usize, Refusal>
    requires { work_length ≤ length work.old }
    ensures { Done (delivered (limited (merged_table (read_query query.now) work.old)) (length output.old)) output.old output.new result × (length work.new ≡ length work.old) }
{
    let q = construction::merge(query, work)?;
    deliver(work, q, query.sizes(), output)
}

// The same, and the work memory cleared behind it: the end of every build.
pub fn merge(query: &CheckedQuery, work: &mut [u8], output: &mut [u8]) -> Result<usize, Refusal>
    requires { work_length ≤ length work.old }
    ensures { Done (delivered (limited (merged_table (read_query query.now) work.old)) (length output.old)) output.old output.new result × (work.new ≡ zeroed (length work.old) work.old) }
{
    let built = merge_into(query, work, output);
    byte_rows::clear(work);
    built
}

// The held word of every pair, and the end of the build.
fn construct(query: &CheckedQuery, work: &mut [u8], output: &mut [u8]) -> Result<usize, Refusal>
    requires { work_length ≤ length work.old }
    ensures { Done (delivered (construct (read_query query.now)) (length output.old)) output.old output.new result × (work.new ≡ zeroed (length work.old) work.old) }
{
    choices::settle(query, work);
    merge(query, work, output)
}

// Build the table of a query, whatever its bytes and whatever is lent: checks 1 to 6, then 9 for scratch, 8, and 9 for output. The table's length.
pub fn build(query: &[u8], scratch: &mut [u8], output: &mut [u8]) -> Result<usize, Refusal>
    ensures value { answer_in result ≡ built_answer (outcome query.now (length scratch.old) (length output.old)) }
    ensures output_after { output.new ≡ output_after query.now (length scratch.old) output.old }
    ensures scratch_after { scratch.new ≡ scratch_after query.now scratch.old }
{
    let checked = query_check::check(query)?;
    if scratch.len() < SCRATCH_LENGTH {
        return Err(Refusal::Space);
    }
    construct(&checked, &mut scratch[..SCRATCH_LENGTH], output)
}
