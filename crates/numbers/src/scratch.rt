// The map of the scratch: where each part begins. The first two bytes have the count of a stepped build, and are free in a build in one call.
pub const COUNT_PART: usize = 0;

// Then comes the held word of each pair of a produced order and a choice of sets in force,
// 2,048 words at most.
pub const WORDS_PART: usize = 2;

// The rows, 128 times two bytes: while they are numbered, a produced order and a choice that give the row; then its held word. Then the successors, 128 rows of 8; and
// the starts, 8.
pub const HELD_PART: usize = 4098;

pub const SUCCESSORS_PART: usize = 4354;

pub const STARTS_PART: usize = 5378;

// For each pair a byte: the sets that change what it answers when they are taken; 2,048 at most.
pub const OPEN_PART: usize = 5386;

// After a build, in the first bytes: the joint states of two tables that are reached, a bit for each of 128 times 128.
pub const JOINT_STATES_LENGTH: usize = 2048;
