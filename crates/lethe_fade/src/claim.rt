//! What a job reads and writes while it runs.
ghost use Rattle.std.specs.Prelude.{◌≡◌, not};
ghost use Rattle.std.specs.List.{list_any};
ghost use Rattle.lethe_fade.specs.Claims.{claim_over, meets};

use crate::span::Span;
use lethe_base::Key;

/// Some levels and a range of keys. Two claims meet where they share a level and a key.
#[derive(Debug, Drop)]
pub struct Claim {
    /// The first of its levels.
    pub first: u64,
    /// The last of its levels, itself one of them.
    pub last: u64,
    /// The least of its keys.
    pub lo: Key,
    /// The greatest of its keys, itself one of them.
    pub hi: Key,
}

/// Whether a job on the levels from one to another and on some keys meets none of the claims.
pub fn is_free(first: u64, last: u64, keys: &Span, claims: &[Claim]) -> bool
    ensures { result ≡ not (list_any (meets (claim_over first last keys.now)) claims.now) }
{
    for claim in claims {
        if does_meet(first, last, keys, claim) {
            return false;
        }
    }
    true
}

/// Whether a job on the levels from one to another and on some keys meets a claim.
fn does_meet(first: u64, last: u64, keys: &Span, claim: &Claim) -> bool
    ensures { result ≡ meets (claim_over first last keys.now) claim.now }
{
    first <= claim.last && claim.first <= last && keys.overlaps(&Span::new(&claim.lo, &claim.hi))
}
