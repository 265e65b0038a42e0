//! Reading numbers.
ghost use Rattle.std.specs.Prelude.{◌≡◌, ◌+◌, ◌<◌, ◌≤◌, IfOk, length};
ghost use Rattle.std.specs.Int.{w8, w16, w32, w64};
ghost use Rattle.lethe_manifest.specs.Numbers.{in_place, number_within, number_above, cited_at};

use crate::ManifestRefused;
use lethe_base::{MAX_PLACE, take_u8, take_u16, take_u32, take_u64};

// The number that was read at `at`, where it is in its range.
fn in_place(value: u64, least: u64, greatest: u64, at: usize) -> Result<u64, ManifestRefused>
    ensures value { result ≡ in_place least greatest at value }
    ensures limit { IfOk result (λ value. value ≤ greatest) }
{
    if least <= value && value <= greatest {
        Ok(value)
    } else {
        Err(ManifestRefused::Kind { at: at as u64 })
    }
}

/// The byte at `at`, in its range.
#[tactic(auto, unfolding(crate::specs::Numbers::number_within))]
pub fn read_byte(bytes: &[u8], at: usize, least: u64, greatest: u64) -> Result<u64, ManifestRefused>
    ensures value { result ≡ number_within w8 least greatest bytes.now at }
    ensures limit { IfOk result (λ value. value ≤ greatest) }
    ensures ends { IfOk result (λ _. at + 1 ≤ length bytes.now) }
{
    let value = take_u8(bytes, at).ok_or(ManifestRefused::Short { at: at as u64 })?;
    in_place(value as u64, least, greatest, at)
}

/// The number whose two bytes begin at `at`, in its range.
#[tactic(auto, unfolding(crate::specs::Numbers::number_within))]
pub fn read_u16(bytes: &[u8], at: usize, least: u64, greatest: u64) -> Result<u64, ManifestRefused>
    ensures value { result ≡ number_within w16 least greatest bytes.now at }
    ensures limit { IfOk result (λ value. value ≤ greatest) }
{
    let value = take_u16(bytes, at).ok_or(ManifestRefused::Short { at: at as u64 })?;
    in_place(value as u64, least, greatest, at)
}

/// The number whose four bytes begin at `at`, in its range.
#[tactic(auto, unfolding(crate::specs::Numbers::number_within))]
pub fn read_u32(bytes: &[u8], at: usize, least: u64, greatest: u64) -> Result<u64, ManifestRefused>
    ensures value { result ≡ number_within w32 least greatest bytes.now at }
    ensures limit { IfOk result (λ value. value ≤ greatest) }
    ensures ends { IfOk result (λ _. at + 4 ≤ length bytes.now) }
{
    let value = take_u32(bytes, at).ok_or(ManifestRefused::Short { at: at as u64 })?;
    in_place(value as u64, least, greatest, at)
}

/// The number whose eight bytes begin at `at`, in its range.
#[tactic(auto, unfolding(crate::specs::Numbers::number_within))]
pub fn read_u64(bytes: &[u8], at: usize, least: u64, greatest: u64) -> Result<u64, ManifestRefused>
    ensures value { result ≡ number_within w64 least greatest bytes.now at }
    ensures limit { IfOk result (λ value. value ≤ greatest) }
    ensures ends { IfOk result (λ _. at + 8 ≤ length bytes.now) }
{
    let value = take_u64(bytes, at).ok_or(ManifestRefused::Short { at: at as u64 })?;
    in_place(value, least, greatest, at)
}

/// The number whose eight bytes begin at `at`, in its range and above the bound.
#[tactic(auto, unfolding(crate::specs::Numbers::number_above))]
pub fn read_above(
    bound: u64,
    bytes: &[u8],
    at: usize,
    least: u64,
    greatest: u64,
) -> Result<u64, ManifestRefused>
    ensures value { result ≡ number_above bound least greatest bytes.now at }
    ensures above { IfOk result (λ value. bound < value) }
    ensures ends { IfOk result (λ _. at + 8 ≤ length bytes.now) }
{
    let value = read_u64(bytes, at, least, greatest)?;
    if bound < value {
        Ok(value)
    } else {
        Err(ManifestRefused::Order { at: at as u64 })
    }
}

/// The number of an object, whose eight bytes begin at `at` and which the next is above.
#[tactic(auto, unfolding(crate::specs::Numbers::cited_at))]
pub fn read_cited(next: u64, bytes: &[u8], at: usize) -> Result<u64, ManifestRefused>
    ensures value { result ≡ cited_at next bytes.now at }
    ensures ends { IfOk result (λ _. at + 8 ≤ length bytes.now) }
{
    let value = read_u64(bytes, at, 0, MAX_PLACE)?;
    if value < next {
        Ok(value)
    } else {
        Err(ManifestRefused::Order { at: at as u64 })
    }
}
