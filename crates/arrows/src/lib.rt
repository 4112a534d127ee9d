// The arrows of a rule, between masks: the columns from which an arrow goes, and the column to which it goes. The functions require what their callers have shown: they are no entry points.
#![tactic(auto)]

ghost use Rattle.std.specs.Prelude.{◌≡◌, false, [], ◌∷◌, ◌++◌, ◌+◌, ◌≤◌, ◌<◌, length};
ghost use Rattle.theory.specs.Orders.{columns_of};
ghost use Rattle.arrayvec.specs.ArrayVec.{array_vec_len};
ghost use Rattle.orders.specs.Orders.{order_of, rule_is};
ghost use Rattle.column_masks.specs.Masks.{Narrow};
ghost use Rattle.arrows.specs.Arrows.{column_arrow, arrows_of, ArrowIs, Adding};

use arrayvec::ArrayVec;
use orders::{Order, Rule};

// An arrow between masks: where a mask has all columns of the left one, it gets those of the right one.
#[derive(Clone, Copy, Default)]
pub struct Arrow {
    pub left: u16,
    pub right: u16,
}

impl Arrow {
    // The arrow from an order's columns to a column.
    pub fn between(from: Order, to: u8) -> Arrow
        requires { Narrow (to ∷ order_of from) }
        ensures { ArrowIs (column_arrow (order_of from) to) result }
    {
        Arrow {
            left: column_masks::mask(from),
            right: column_masks::bit(to),
        }
    }
}

// The order of one column.
fn single(c: u8) -> Order
    ensures { order_of result ≡ c ∷ [] }
{
    Order {
        entries: [c, 0, 0, 0],
        len: 1,
    }
}

// A rule's arrows behind the others: a fix has one, and an equal has two, one each way.
pub fn add_rule<const N: usize>(arrows: &mut ArrayVec<Arrow, N>, rule: Rule)
    requires { Narrow (columns_of (rule_is rule)) × (array_vec_len arrows.old + 2 ≤ N) }
    ensures { Adding (arrows_of false (rule_is rule)) arrows.old.items arrows.new.items }
{
    match rule {
        Rule::Fix { count, a, b, c, d } => {
            let k = count as usize;
            let named = Order {
                entries: [a, b, c, d],
                len: 4,
            };
            let from = named.front(k);
            let to = named.entry(k);
            arrows.push(Arrow::between(from, to));
        }
        Rule::Equal { a, b } => {
            let one = Arrow::between(single(a), b);
            let other = Arrow::between(single(b), a);
            arrows.push(one);
            arrows.push(other);
        }
    }
}
