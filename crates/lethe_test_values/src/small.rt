//! A small configuration, whose buffers are soon full.

use lethe_base::{Fields, Pick};

/// Four records fill a buffer, two entries a page, and more than 16 entries saturate level 1.
pub const SMALL: Fields = Fields {
    threshold: 100,
    ratio: 2,
    levels: 2,
    page: 2,
    tile: 2,
    file: 2,
    buffer: 4,
    pick: Pick::So,
};

/// The words that run a script with this configuration.
pub const SMALL_WORDS: [&str; 15] = [
    "run",
    "--threshold",
    "100",
    "--levels",
    "2",
    "--page",
    "2",
    "--tile",
    "2",
    "--file",
    "2",
    "--buffer",
    "4",
    "--ratio",
    "2",
];
