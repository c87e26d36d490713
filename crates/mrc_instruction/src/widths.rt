// How many numbers a width holds.

// The words: one for each offset.
pub const WORDS: usize = 65536;

// The double words.
pub const DOUBLE_WORDS: usize = 4294967296;
