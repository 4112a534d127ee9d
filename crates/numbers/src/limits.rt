// The limits of the sizes, and the widths of both layouts.
pub const MAX_COLUMNS: u8 = 12;

pub const MAX_PRODUCED: u8 = 8;

pub const MAX_TESTED: u8 = 8;

pub const MAX_SETS: u8 = 8;

pub const MAX_DEPENDENCIES: u8 = 16;

pub const MAX_STATES: usize = 128;

// An order has at most so many entries.
pub const MAX_LENGTH: u8 = 4;

// A query: its sizes; an item's four bytes, five with its head; a dependency's head is so many times its kind plus its set; the kind of an equal; an unused byte.
pub const QUERY_SIZES: usize = 5;

pub const BODY_WIDTH: usize = 4;

pub const ITEM_WIDTH: usize = 5;

pub const KIND_UNIT: u8 = 16;

pub const EQUAL_KIND: u8 = 4;

pub const UNUSED_BYTE: u8 = 255;

// The rules in force give at most so many arrows: two for each dependency.
pub const MAX_ARROWS: usize = 32;

// A set of columns as a mask has so many bits.
pub const MASK_BITS: usize = 16;

// In an order so much is added to a column that descends.
pub const DESCENDING_UNIT: u8 = 128;

// A table: its sizes; the held bytes of a state; the longest one.
pub const TABLE_SIZES: usize = 4;

pub const HELD_WIDTH: usize = 2;

pub const LONGEST_TABLE: usize = 1292;

// A lookup's answer as one number is so many times the refusal's number plus the value.
pub const REFUSAL_UNIT: u32 = 65536;

// An item of a query as one number is so many times the refusal's number plus the value: 2 to the 48.
pub const ITEM_REFUSAL_UNIT: u64 = 281474976710656;

// The longest listing: the count, 11 bytes; 8 starts of 14; and 128 states of 58. The longest line of a refusal.
pub const LONGEST_LISTING: usize = 7547;

pub const LONGEST_REFUSAL: usize = 12;

// No query is longer than 165 bytes: the first 256 of a longer input are refused as the whole is. No table is longer than 1,292: so are the first 1,293.
pub const QUERY_FRONT: usize = 256;

pub const TABLE_FRONT: usize = 1293;

// The least scratch that a build takes.
pub const SCRATCH_LENGTH: usize = 16384;
