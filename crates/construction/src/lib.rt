// Constructing: from a checked query to the starts, successors and held words of its table, each in its part of the scratch, or to 8; and merging, from the held words of the pairs
// that lie in the scratch, whatever they are. The functions require what their callers have shown: neither is an entry point.
#![tactic(auto)]

ghost use Rattle.std.specs.Prelude.{◌≡◌, ◌≤◌, length};
ghost use Rattle.theory.specs.Query.{read_query};
ghost use Rattle.theory.specs.Scratch.{work_length};
ghost use Rattle.theory.specs.Build.{limited, construct};
ghost use Rattle.theory.specs.Steps.{merged_table};
ghost use Rattle.construction.specs.Constructed.{Leaves};

use numbers::refusals::Refusal;
use query::CheckedQuery;

// The rows of the held words that lie there: pairs that answer alike for every choice of further sets are one. How many there are, or 8. Of the query the sizes alone count.
pub fn merge(query: &CheckedQuery, work: &mut [u8]) -> Result<usize, Refusal>
    requires { work_length ≤ length work.old }
    ensures { Leaves (limited (merged_table (read_query query.now) work.old)) work.new result × (length work.new ≡ length work.old) }
{
    table_rows::number(work, query.sizes()).ok_or(Refusal::States)
}

// The held word of every pair of a produced order and a choice; then the rows: pairs that answer alike for every choice of further sets are one.
pub fn construct(query: &CheckedQuery, work: &mut [u8]) -> Result<usize, Refusal>
    requires { work_length ≤ length work.old }
    ensures { Leaves (construct (read_query query.now)) work.new result × (length work.new ≡ length work.old) }
{
    choices::settle(query, work);
    merge(query, work)
}
