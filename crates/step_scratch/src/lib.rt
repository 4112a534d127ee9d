// What a call of a stepped build leaves in the scratch: a build begun, and one pair more settled. Both functions require what their callers have shown: neither is an entry
// point.
#![tactic(auto)]

ghost use Rattle.std.specs.Prelude.{◌≡◌, ◌-◌, ◌≤◌, length};
ghost use Rattle.theory.specs.Limits.{scratch_length};
ghost use Rattle.theory.specs.Query.{read_query};
ghost use Rattle.theory.specs.Steps.{pair_count, begun, settled_pair};

use numbers::limits::SCRATCH_LENGTH;
use numbers::scratch::COUNT_PART;
use query::CheckedQuery;

// The zeroed part is 0 but for the count, which is 1.
pub fn clear_and_count(scratch: &mut [u8])
    requires { scratch_length ≤ length scratch.old }
    ensures { scratch.new ≡ begun scratch.old }
{
    byte_rows::clear(&mut scratch[..SCRATCH_LENGTH]);
    pair_words::put(scratch, COUNT_PART, 1);
}

// The pair that the count names is settled, and counted.
pub fn settle_next(query: &CheckedQuery, scratch: &mut [u8], count: usize)
    requires { (1 ≤ count) × (count ≤ pair_count (read_query query.now)) × (count ≤ 2048) × (scratch_length ≤ length scratch.old) }
    ensures { scratch.new ≡ settled_pair (read_query query.now) (count - 1) scratch.old }
{
    choices::settle_pair(query, scratch, count - 1);
    pair_words::put(scratch, COUNT_PART, (count + 1) as u16);
}
