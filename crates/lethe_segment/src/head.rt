//! The head of a segment: `LS`, the format and the segment's number.
ghost use Rattle.std.specs.Prelude.{◌≡◌, ◌==◌, not, [], IfOk, IfErr, MatchOption, position};
ghost use Rattle.std.specs.List.{zip};
ghost use Rattle.lethe_segment.specs.Segments.{mark, head_bytes, segment_bytes};
ghost use Rattle.lethe_segment.specs.Heads.{HasHead, IsNoHead, IsHeadFault};

use lethe_base::take_u64;

/// What each head begins with: two letters and the byte of the one format.
const MARK: [u8; 3] = [b'L', b'S', 1];

/// How many bytes a head has.
pub(crate) const HEAD: usize = 11;

/// A new segment, which has no record: its head and a closed gate byte.
#[tactic(auto, unfolding(crate::specs::Segments::head_bytes, crate::specs::Segments::segment_bytes))]
pub fn new_segment(number: u64) -> [u8; 12]
    ensures { result ≡ segment_bytes number [] }
{
    let [l, s, format] = MARK;
    let [a, b, c, d, e, f, g, h] = number.to_be_bytes();
    [l, s, format, a, b, c, d, e, f, g, h, 0]
}

/// A segment's head.
#[tactic(auto, unfolding(crate::specs::Segments::head_bytes))]
pub(crate) fn head(number: u64) -> [u8; 11]
    ensures { result ≡ head_bytes number }
{
    let [l, s, format] = MARK;
    let [a, b, c, d, e, f, g, h] = number.to_be_bytes();
    [l, s, format, a, b, c, d, e, f, g, h]
}

/// The number of the segment, by its head. None exactly where the bytes don't begin with a head.
pub fn segment_number(bytes: &[u8]) -> Option<u64>
    ensures { MatchOption result (IsNoHead bytes.now) (λ number. HasHead number bytes.now) }
{
    read_head(bytes).ok()
}

// The number, or the first byte that differs from a head's, or the length of less than a head.
pub(crate) fn read_head(bytes: &[u8]) -> Result<u64, usize>
    ensures number { IfOk result (λ number. HasHead number bytes.now) }
    ensures fault { IfErr result (IsHeadFault bytes.now) }
{
    match mark_fault(bytes) {
        Some(at) => Err(at),
        None => take_u64(bytes, MARK.len()).ok_or(bytes.len()),
    }
}

// The first byte that differs from the mark's.
fn mark_fault(bytes: &[u8]) -> Option<usize>
    ensures { result ≡ position (λ pair. not (pair.0 == pair.1)) (zip bytes.now mark) }
{
    bytes
        .iter()
        .zip(MARK.iter())
        .position(|(byte, mark)| *byte != *mark)
}
