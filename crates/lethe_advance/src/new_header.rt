//! A header of a file that comes into a level.

use lethe_header::Header;

/// The header of a file that isn't cited yet, and the level that the file comes into.
#[derive(Debug, Drop)]
pub struct NewHeader {
    pub level: u64,
    pub header: Header,
}
