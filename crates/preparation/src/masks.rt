// The classes of columns that are alike under the rules in force, as masks.
ghost use Rattle.closure.specs.RuleMasks.{ClassesOf};
ghost use Rattle.rules_in_force.specs.Rules.{rules_at};

use arrayvec::ArrayVec;
use arrows::Arrow;
use numbers::limits::{MASK_BITS, MAX_ARROWS};
use query::CheckedQuery;

// For each column the mask of those alike to it, which the equals in force lead to. They are collected in the list that is lent.
pub fn classes(
    query: &CheckedQuery,
    x: u8,
    equals: &mut ArrayVec<Arrow, MAX_ARROWS>,
) -> [u16; MASK_BITS]
    ensures { ClassesOf (rules_at query.now x) result }
{
    rules_in_force::list(query, x, true, equals);
    let mut classes = [0; MASK_BITS];
    for c in 0..MASK_BITS {
        classes[c] = closure::close(equals, column_masks::bit(c as u8));
    }
    classes
}
