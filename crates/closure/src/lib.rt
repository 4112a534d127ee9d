// Closing a mask under arrows: where it has all columns of an arrow's left one, it gets those of the right one. And the rules in force as the closure test is given them.
#![tactic(auto)]

ghost use Rattle.std.specs.Prelude.{◌≡◌};
ghost use Rattle.closure.specs.Closing.{used, pass, Closes};

use arrayvec::ArrayVec;
use arrows::Arrow;
use numbers::limits::MASK_BITS;

// What the closure test is given of the rules in force: the arrows that stand for them, the mask of the columns that are settled from the start, before any entry, and for each column
// the mask of its class.
#[derive(Clone, Drop)]
pub struct PreparedRules<const N: usize> {
    pub arrows: ArrayVec<Arrow, N>,
    pub start: u16,
    pub classes: [u16; MASK_BITS],
}

// One arrow is used.
fn used(arrow: Arrow, mask: u16) -> u16
    ensures { result ≡ used arrow mask }
{
    if mask | arrow.left == mask {
        mask | arrow.right
    } else {
        mask
    }
}

// The arrows are used, one after the other.
fn pass(arrows: &[Arrow], mask: u16) -> u16
    ensures { result ≡ pass arrows.now mask }
{
    let mut all = mask;
    for &arrow in arrows {
        all = used(arrow, all);
    }
    all
}

// All that the arrows give from the mask: passes, until one adds nothing.
pub fn close(arrows: &[Arrow], mask: u16) -> u16
    ensures { Closes arrows.now mask result }
{
    let mut all = mask;
    loop {
        let next = pass(arrows, all);
        if next == all {
            return all;
        }
        all = next;
    }
}
