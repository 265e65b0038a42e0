//! A file that isn't written yet.

use lethe_base::List;
use lethe_header::Header;

/// A file to be written: its header, and the bytes of its pages, in the order of the header's lines.
#[derive(Debug, Drop)]
pub struct Built {
    pub header: Header,
    /// What the header is spelled as.
    pub header_bytes: List<u8>,
    /// SHA-256 of `header_bytes`.
    pub digest: [u8; 32],
    pub pages: List<List<u8>>,
}
