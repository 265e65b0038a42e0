//! How long an object's file may be, and reading one up to there.
ghost use Rattle.std.specs.Prelude.{◌≡◌, ◌≤◌, ◌+◌, ◌^◌, ◌↔◌, IfOk, IsOk, vec_len};
ghost use Rattle.lethe_dirdisk.specs.Lengths.{longest};

use lethe_base::{Kind, Name};
use std::alloc::Global;
use std::fs::File;
use std::io::{self, ErrorKind};
use std::os::unix::fs::FileExt;

/// How much is read at once at first.
const PIECE: usize = 1 << 20;

/// The greatest length of an object of a kind.
pub fn longest_of(kind: Kind) -> u64
    ensures longest { result ≡ longest kind }
    ensures small { result ≤ 2 ^ 28 }
{
    match kind {
        Kind::Gate => 0,
        Kind::Manifest => 1 << 28,
        Kind::Segment => 1 << 27,
        Kind::File => 1 << 25,
        Kind::Page => 1 << 25,
    }
}

/// Refuses bytes that would go past the greatest length of an object. What couldn't be read whole again isn't written.
pub fn fits(name: Name, at: u64, count: usize) -> io::Result<()>
    ensures { IsOk result ↔ (at + count ≤ longest name.kind) }
{
    let most = longest_of(name.kind);
    if at <= most && count as u64 <= most - at {
        Ok(())
    } else {
        Err(ErrorKind::FileTooLarge.into())
    }
}

/// So many bytes from the beginning of a file. Memory is taken as they come: at first for a piece, then for as much again as has come.
pub fn read_front(alloc: Global, file: &File, len: usize) -> io::Result<Vec<u8>>
    requires { len ≤ 2 ^ 28 }
    ensures { IfOk result (λ bytes. vec_len bytes ≡ len) }
{
    let mut bytes = Vec::new(alloc);
    while bytes.len() < len {
        let have = bytes.len();
        let next = len.min(have + have.max(PIECE));
        bytes.reserve_exact(next - have)?;
        bytes.resize(next, 0)?;
        file.read_exact_at(&mut bytes[have..], have as u64)?;
    }
    Ok(bytes)
}
