// The numbers that the code shares, each named once: the refusal list, the limits and widths of both layouts, and the map of the scratch.
#![tactic(auto)]

pub mod limits;
pub mod refusals;
pub mod scratch;
