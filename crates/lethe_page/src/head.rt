//! Reading the head of a page.
ghost use Rattle.std.specs.Prelude.{◌≡◌};
ghost use Rattle.std.specs.Int.{w8, w16, w32};
ghost use Rattle.lethe_page.specs.Reading.{fixed_at, class_at, count_at, head_at};

use crate::{Class, PageRefused};
use lethe_base::{take_u8, take_u16, take_u32};

/// A byte that is the same in each page, or in each entry of the class.
#[tactic(auto, unfolding(crate::specs::Reading::fixed_at))]
pub(crate) fn fixed_byte(number: u8, bytes: &[u8], at: usize) -> Result<u8, PageRefused>
    ensures { result ≡ fixed_at w8 number bytes.now at }
{
    let value = take_u8(bytes, at).ok_or(PageRefused::Short { at: at as u64 })?;
    if value == number {
        Ok(value)
    } else {
        Err(PageRefused::Kind { at: at as u64 })
    }
}

// Two bytes that are the same in each page.
#[tactic(auto, unfolding(crate::specs::Reading::fixed_at))]
fn fixed_u16(number: u16, bytes: &[u8], at: usize) -> Result<u16, PageRefused>
    ensures { result ≡ fixed_at w16 number bytes.now at }
{
    let value = take_u16(bytes, at).ok_or(PageRefused::Short { at: at as u64 })?;
    if value == number {
        Ok(value)
    } else {
        Err(PageRefused::Kind { at: at as u64 })
    }
}

#[tactic(auto, unfolding(crate::specs::Reading::class_at))]
fn read_class(bytes: &[u8], at: usize) -> Result<Class, PageRefused>
    ensures { result ≡ class_at bytes.now at }
{
    match take_u8(bytes, at).ok_or(PageRefused::Short { at: at as u64 })? {
        1 => Ok(Class::Puts),
        2 => Ok(Class::Tombs),
        _ => Err(PageRefused::Kind { at: at as u64 }),
    }
}

#[tactic(auto, unfolding(crate::specs::Reading::count_at))]
fn read_count(bytes: &[u8], at: usize) -> Result<u32, PageRefused>
    ensures { result ≡ count_at bytes.now at }
{
    let count = take_u32(bytes, at).ok_or(PageRefused::Short { at: at as u64 })?;
    if count == 0 {
        Err(PageRefused::Kind { at: at as u64 })
    } else {
        Ok(count)
    }
}

/// The class and the number of entries.
#[tactic(auto, unfolding(crate::specs::Reading::head_at))]
pub(crate) fn read_head(bytes: &[u8]) -> Result<(Class, u32), PageRefused>
    ensures { result ≡ head_at bytes.now }
{
    fixed_u16(0x4c50, bytes, 0)?;
    fixed_byte(1, bytes, 2)?;
    let class = read_class(bytes, 3)?;
    let count = read_count(bytes, 4)?;
    Ok((class, count))
}
