// The limits of a sharing sheet, and how its words are divided.
pub const MAX_HEADS: u32 = 8;

pub const MAX_JOBS: usize = 24;

// Each of the two counts in an opening word.
pub const COUNT_BITS: u32 = 14;

pub const INK_BITS: u32 = 16;
