//! Reading numbers.
ghost use Rattle.std.specs.Prelude.{◌≡◌, ◌+◌, ◌≤◌, IfOk, length};
ghost use Rattle.std.specs.Int.{w8, w16, w32, w64};
ghost use Rattle.lethe_header.specs.Reading.{field_at, number_within, number_from};

use crate::HeaderRefused;
use lethe_base::{take_u8, take_u16, take_u32, take_u64};

/// The byte at `at`, in its range.
#[tactic(auto, unfolding(crate::specs::Reading::number_within))]
pub fn read_u8(bytes: &[u8], at: usize, least: u8, greatest: u8) -> Result<u8, HeaderRefused>
    ensures number { result ≡ number_within w8 least greatest bytes.now at }
    ensures least { IfOk result (λ value. least ≤ value) }
    ensures ends { IfOk result (λ _. at + 1 ≤ length bytes.now) }
{
    let value = take_u8(bytes, at).ok_or(HeaderRefused::Short { at: at as u64 })?;
    if least <= value && value <= greatest {
        Ok(value)
    } else {
        Err(HeaderRefused::Kind { at: at as u64 })
    }
}

/// The number whose two bytes begin at `at`, in its range.
#[tactic(auto, unfolding(crate::specs::Reading::number_within))]
pub fn read_u16(bytes: &[u8], at: usize, least: u16, greatest: u16) -> Result<u16, HeaderRefused>
    ensures number { result ≡ number_within w16 least greatest bytes.now at }
    ensures least { IfOk result (λ value. least ≤ value) }
    ensures ends { IfOk result (λ _. at + 2 ≤ length bytes.now) }
{
    let value = take_u16(bytes, at).ok_or(HeaderRefused::Short { at: at as u64 })?;
    if least <= value && value <= greatest {
        Ok(value)
    } else {
        Err(HeaderRefused::Kind { at: at as u64 })
    }
}

/// The number whose four bytes begin at `at`, in its range.
#[tactic(auto, unfolding(crate::specs::Reading::number_within))]
pub fn read_u32(bytes: &[u8], at: usize, least: u32, greatest: u32) -> Result<u32, HeaderRefused>
    ensures number { result ≡ number_within w32 least greatest bytes.now at }
    ensures least { IfOk result (λ value. least ≤ value) }
    ensures ends { IfOk result (λ _. at + 4 ≤ length bytes.now) }
{
    let value = take_u32(bytes, at).ok_or(HeaderRefused::Short { at: at as u64 })?;
    if least <= value && value <= greatest {
        Ok(value)
    } else {
        Err(HeaderRefused::Kind { at: at as u64 })
    }
}

/// The number whose eight bytes begin at `at`.
pub fn take_long(bytes: &[u8], at: usize) -> Result<u64, HeaderRefused>
    ensures number { result ≡ field_at w64 bytes.now at }
    ensures ends { IfOk result (λ _. at + 8 ≤ length bytes.now) }
{
    take_u64(bytes, at).ok_or(HeaderRefused::Short { at: at as u64 })
}

/// The number whose eight bytes begin at `at`, in its range.
#[tactic(auto, unfolding(crate::specs::Reading::number_within))]
pub fn read_u64(bytes: &[u8], at: usize, least: u64, greatest: u64) -> Result<u64, HeaderRefused>
    ensures number { result ≡ number_within w64 least greatest bytes.now at }
    ensures least { IfOk result (λ value. least ≤ value) }
    ensures ends { IfOk result (λ _. at + 8 ≤ length bytes.now) }
{
    let value = take_long(bytes, at)?;
    if least <= value && value <= greatest {
        Ok(value)
    } else {
        Err(HeaderRefused::Kind { at: at as u64 })
    }
}

/// The number whose eight bytes begin at `at`, which must not be below `least`.
#[tactic(auto, unfolding(crate::specs::Reading::number_from))]
pub fn read_from(bytes: &[u8], at: usize, least: u64) -> Result<u64, HeaderRefused>
    ensures number { result ≡ number_from least bytes.now at }
    ensures ends { IfOk result (λ _. at + 8 ≤ length bytes.now) }
{
    let value = take_long(bytes, at)?;
    if least <= value {
        Ok(value)
    } else {
        Err(HeaderRefused::Order { at: at as u64 })
    }
}
