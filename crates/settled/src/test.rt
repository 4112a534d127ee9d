// The closure test. It reads the prepared rules alone, no query, and closes a mask once for each entry that is used up but the last.
ghost use Rattle.std.specs.Prelude.{◌≡◌, List, ◌≤◌, ◌<◌, length};
ghost use Rattle.theory.specs.Orders.{descends, column, columns, Rule};
ghost use Rattle.theory.specs.Settled.{is_held};
ghost use Rattle.orders.specs.Orders.{order_of};
ghost use Rattle.column_masks.specs.Masks.{Narrow};
ghost use Rattle.closure.specs.RuleMasks.{Prepared};
ghost use Rattle.settled.specs.Ends.{Ends};
ghost use Rattle.settled.specs.Places.{Skipped, class_in, meets};

use crate::Stop;
use arrows::Arrow;
use closure::PreparedRules;
use numbers::limits::MASK_BITS;
use orders::Order;

// The first place from one on where the order has an entry whose column the mask does not have; the length where there is none.
fn unsettled(o: Order, from: usize, mask: u16) -> usize
    requires { Narrow (columns (order_of o)) × (from ≤ length (order_of o)) }
    ensures { Skipped mask (order_of o) from result }
{
    let n = o.length();
    for i in from..n {
        if !column_masks::has(mask, o.column(i)) {
            return i;
        }
    }
    n
}

// The class of an entry's column, where the entry has the direction of another; else none.
fn class_by(classes: &[u16; MASK_BITS], e: u8, x: u8) -> u16
    requires { column e < 16 }
    ensures { result ≡ class_in classes.now e (descends x) }
{
    let c = orders::column_of(e) as usize;
    if orders::descends(e) == orders::descends(x) {
        classes[c]
    } else {
        0
    }
}

// Whether the produced order has an entry at a place that is alike to e.
fn meets(classes: &[u16; MASK_BITS], e: u8, p: Order, at: usize) -> bool
    requires { (column e < 16) × Narrow (columns (order_of p)) }
    ensures { result ≡ meets classes.now e (order_of p) at }
{
    if at < p.length() {
        let x = p.entry(at);
        column_masks::has(class_by(classes, e, x), orders::column_of(x))
    } else {
        false
    }
}

// The test of order o against the produced order p: where it stops, or nothing where o is held. An entry of o that is settled by those before it is passed over; any other uses
// up the first entry of what is left of p that is not settled, which has to be alike. The arrows and the classes are lent.
pub fn test_on(
    arrows: &[Arrow],
    start: u16,
    classes: &[u16; MASK_BITS],
    p: Order,
    o: Order,
) -> Option<Stop>
    requires { Narrow (columns (order_of p)) × Narrow (columns (order_of o)) }
    ensures { (rs : List Rule) → Prepared rs arrows.now start classes.now → Ends rs (order_of p) (order_of o) result }
{
    let m = o.length();
    let mut mask = start;
    let mut j = 0;
    for i in 0..m {
        let e = o.entry(i);
        let c = orders::column_of(e);
        if column_masks::has(mask, c) {
            continue;
        }
        j = unsettled(p, j, mask);
        if !meets(classes, e, p, j) {
            let x = p.entry(j);
            return Some(Stop {
                settled: mask,
                class: class_by(classes, e, x),
                ascends: !orders::descends(x),
            });
        }
        if i + 1 == m {
            return None;
        }
        mask = closure::close(arrows, mask | column_masks::bit(c));
        j += 1;
    }
    None
}

// The same test on prepared rules.
pub fn test<const N: usize>(rules: &PreparedRules<N>, p: Order, o: Order) -> Option<Stop>
    requires { Narrow (columns (order_of p)) × Narrow (columns (order_of o)) }
    ensures { (rs : List Rule) → Prepared rs rules.now.arrows.items rules.now.start rules.now.classes → Ends rs (order_of p) (order_of o) result }
{
    test_on(&rules.arrows, rules.start, &rules.classes, p, o)
}

// Whether order o is held from the produced order p.
pub fn held<const N: usize>(rules: &PreparedRules<N>, p: Order, o: Order) -> bool
    requires { Narrow (columns (order_of p)) × Narrow (columns (order_of o)) }
    ensures { (rs : List Rule) → Prepared rs rules.now.arrows.items rules.now.start rules.now.classes → result ≡ is_held rs (order_of p) (order_of o) }
{
    test(rules, p, o).is_none()
}
