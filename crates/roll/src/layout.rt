// Where what stands in a roll.

// The edition of the rolls that are written and read.
pub const EDITION: u8 = 1;

// The bytes before the levels.
pub const HEADER_LENGTH: usize = 8;
