//! Numbers in bytes, the high byte first.
ghost use Rattle.std.specs.Prelude.{◌≡◌};
ghost use Rattle.std.specs.Int.{w8, w16, w32, w64};
ghost use Rattle.lethe_base.specs.Numbers.{number_at};

/// The byte at `at`. None exactly where there is none, also past the end.
pub fn take_u8(bytes: &[u8], at: usize) -> Option<u8>
    ensures { result ≡ number_at w8 bytes.now at }
{
    bytes.get(at).copied()
}

/// The number whose two bytes begin at `at`. None exactly where fewer follow, also past the end.
pub fn take_u16(bytes: &[u8], at: usize) -> Option<u16>
    ensures { result ≡ number_at w16 bytes.now at }
{
    let field = bytes.get(at..)?.get(..2)?;
    Some(u16::from_be_bytes([field[0], field[1]]))
}

/// The number whose four bytes begin at `at`. None exactly where fewer follow, also past the end.
pub fn take_u32(bytes: &[u8], at: usize) -> Option<u32>
    ensures { result ≡ number_at w32 bytes.now at }
{
    let field = bytes.get(at..)?.get(..4)?;
    Some(u32::from_be_bytes([field[0], field[1], field[2], field[3]]))
}

/// The number whose eight bytes begin at `at`. None exactly where fewer follow, also past the end.
pub fn take_u64(bytes: &[u8], at: usize) -> Option<u64>
    ensures { result ≡ number_at w64 bytes.now at }
{
    let field = bytes.get(at..)?.get(..8)?;
    Some(u64::from_be_bytes([
        field[0], field[1], field[2], field[3], field[4], field[5], field[6], field[7],
    ]))
}
