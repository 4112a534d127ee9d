// The kinds of number by which callers name things, a struct for each, so that one never stands in for another: the functions for C take bytes and wrap them.
#![tactic(auto)]

// An interesting order, or a produced one: the produced orders come first.
#[derive(Clone, Copy)]
pub struct OrderHandle(pub u8);

// A set of dependencies.
#[derive(Clone, Copy)]
pub struct SetHandle(pub u8);

// A state of a table.
#[derive(Clone, Copy)]
pub struct StateNumber(pub u8);

// A choice of the sets in force: bit i for set i.
#[derive(Clone, Copy)]
pub struct SetChoice(pub u8);
