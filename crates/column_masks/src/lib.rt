// Sets of columns as masks, bit c for column c. Every function requires what its callers have shown: none is an entry point.
#![tactic(auto)]

ghost use Rattle.std.specs.Prelude.{◌≡◌, ◌<◌, ◌^◌};
ghost use Rattle.theory.specs.Tests.{in_mask};
ghost use Rattle.orders.specs.Orders.{order_of};
ghost use Rattle.column_masks.specs.Masks.{Narrow, MaskOf};

use orders::Order;

// Whether the mask has a column.
pub fn has(mask: u16, c: u8) -> bool
    requires { c < 16 }
    ensures { result ≡ in_mask mask c }
{
    (mask >> c) % 2 == 1
}

// The mask of one column.
pub fn bit(c: u8) -> u16
    requires { c < 16 }
    ensures { result ≡ 2 ^ c }
{
    1 << c
}

// The mask of columns.
pub fn mask(o: Order) -> u16
    requires { Narrow (order_of o) }
    ensures { MaskOf (order_of o) result }
{
    let mut all: u16 = 0;
    for &column in o.entries() {
        all |= bit(column);
    }
    all
}
