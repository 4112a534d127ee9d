// The closure test: whether an order is held, on sets of columns as masks and rules as arrows between masks.
#![tactic(auto)]

pub mod test;

// Where the test stops, at an entry of an order that is not held: the mask of the columns that the entries before settle; the mask of the entry's class, or none where the entry has
// the other direction than the first unsettled entry of what is left of the produced order; and whether that one ascends, which it does where none is left.
#[derive(Clone, Copy)]
pub struct Stop {
    pub settled: u16,
    pub class: u16,
    pub ascends: bool,
}
