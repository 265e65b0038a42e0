//! The limits of times and places.

/// The greatest time: 2^62. The clock begins at 0 and moves by ticks alone.
pub const MAX_TIME: u64 = 1 << 62;

/// The greatest place of a change in a history, and the greatest number of an object: 2^62 - 1.
pub const MAX_PLACE: u64 = (1 << 62) - 1;
