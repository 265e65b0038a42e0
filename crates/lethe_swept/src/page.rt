//! A new page of what a sweep leaves.
ghost use Rattle.std.specs.Prelude.{◌≡◌, IfOk};
ghost use Rattle.sha2.specs.Sha256.{sha256};
ghost use Rattle.lethe_build.specs.Built.{class_of, class_of_body, spelled};
ghost use Rattle.lethe_build.specs.Parts.{IsLineOf, IsPage};

use lethe_base::{Body, Entry, List, NoMemory};
use lethe_build::line_of;
use lethe_header::PageLine;
use lethe_page::{Class, write_page};
use sha2::{Digest, Sha256};
use std::alloc::Global;

/// SHA-256 of the bytes.
pub fn digest_of(bytes: &[u8]) -> [u8; 32]
    ensures { result ≡ sha256 bytes.now }
{
    let mut hasher = Sha256::new();
    hasher.update(bytes);
    hasher.finalize()
}

/// The class of the entries, by the first of them.
fn class_of(entries: &[Entry]) -> Class
    ensures { result ≡ class_of entries.now }
{
    match entries.first() {
        Some(entry) => class_of_body(&entry.body),
        None => Class::Puts,
    }
}

fn class_of_body(body: &Body) -> Class
    ensures { result ≡ class_of_body body.now }
{
    match body {
        Body::Put { .. } => Class::Puts,
        Body::Tomb => Class::Tombs,
    }
}

/// The line of the page of these entries, which has no number yet, and the page's bytes.
pub fn new_page(alloc: Global, entries: List<Entry>) -> Result<(PageLine, List<u8>), NoMemory>
    requires { IsPage entries }
    ensures number { IfOk result (λ page. page.0.no ≡ 0) }
    ensures line { IfOk result (λ page. IsLineOf entries page.0) }
    ensures bytes { IfOk result (λ page. page.1 ≡ spelled entries) }
{
    let entries = entries.into_vec();
    let bytes = write_page(alloc, class_of(&entries), &entries)?;
    let (line, _) = line_of(alloc, 0, entries, &bytes)?;
    Ok((line, List::of(bytes)))
}
