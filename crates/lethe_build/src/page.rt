//! Spelling a page, and telling of it by a line.
ghost use Rattle.std.specs.Prelude.{◌≡◌, ◌≤◌, ◌<◌, ◌^◌, length, All, IfOk};
ghost use Rattle.sha2.specs.Sha256.{sha256};
ghost use Rattle.lethe_base.specs.Limits.{max_place};
ghost use Rattle.lethe_page.specs.Pages.{HasSpelling};
ghost use Rattle.lethe_file.specs.Agreement.{IsFilterOf, keys_of};
ghost use Rattle.lethe_build.specs.Built.{class_of, spelled};
ghost use Rattle.lethe_build.specs.Parts.{IsPage, IsLineOf};

use crate::line::{class_of, fence_of, keys_of, max_seq_of, oldest_of};
use lethe_base::{Entry, Key, List, NoMemory};
use lethe_header::PageLine;
use lethe_page::write_page;
use lethe_tile::Filter;
use sha2::{Digest, Sha256};
use std::alloc::Global;

/// SHA-256 of the bytes.
pub fn digest_of(bytes: &[u8]) -> [u8; 32]
    ensures { result ≡ sha256 bytes.now }
{
    let mut hasher = Sha256::new();
    hasher.update(bytes);
    hasher.finalize()
}

/// The filter of these keys.
fn filter_of(alloc: Global, keys: &[Key]) -> Result<Filter, NoMemory>
    requires { 0 < length keys.now }
    ensures { IfOk result (IsFilterOf keys.now) }
{
    Filter::build(alloc, keys)
}

/// The line of the page of these entries, with this number, which is spelled by these bytes; and the keys, taken from the entries.
pub fn line_of(
    alloc: Global,
    no: u64,
    entries: Vec<Entry>,
    bytes: &[u8],
) -> Result<(PageLine, Vec<Key>), NoMemory>
    requires number { no ≤ max_place }
    requires page { HasSpelling (class_of entries.items) entries.items }
    requires bytes { bytes.now ≡ spelled entries.items }
    ensures number { IfOk result (λ line. line.0.no ≡ no) }
    ensures line { IfOk result (λ line. IsLineOf entries.items line.0) }
    ensures keys { IfOk result (λ line. line.1.items ≡ keys_of entries.items) }
{
    let class = class_of(&entries);
    let count = entries.len() as u32;
    let max_seq = max_seq_of(&entries);
    let oldest = oldest_of(&entries);
    let fence = fence_of(&entries);
    let keys = keys_of(alloc, entries)?;
    let filter = filter_of(alloc, &keys)?;
    let line = PageLine {
        no,
        class,
        entries: count,
        max_seq,
        oldest,
        fence,
        filter,
        digest: digest_of(bytes),
    };
    Ok((line, keys))
}

/// The line and the bytes of the page of these entries, which has no number yet: 0 stands in its place.
pub fn build_page(alloc: Global, entries: List<Entry>) -> Result<(PageLine, List<u8>), NoMemory>
    requires { IsPage entries }
    ensures line { IfOk result (λ page. IsLineOf entries page.0) }
    ensures bytes { IfOk result (λ page. page.1 ≡ spelled entries) }
{
    let entries = entries.into_vec();
    let bytes = write_page(alloc, class_of(&entries), &entries)?;
    let (line, _) = line_of(alloc, 0, entries, &bytes)?;
    Ok((line, List::of(bytes)))
}
