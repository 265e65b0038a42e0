//! The page that bytes spell, where they are those that its line tells of.
ghost use Rattle.std.specs.Prelude.{◌≡◌, ◌↔◌, List, IfOk, IsErrOf, IsTrue};
ghost use Rattle.sha2.specs.Sha256.{sha256};
ghost use Rattle.lethe_base.specs.declared.entry.Entry.{Entry};
ghost use Rattle.lethe_page.specs.Pages.{page_bytes};
ghost use Rattle.lethe_file.specs.Agreement.{IsChecked, check_of};
ghost use Rattle.lethe_file.specs.Finding.{IsFoundIn};
ghost use Rattle.lethe_file.specs.declared.page.PageFault.TheVariants.{Other};

use lethe_base::{Entry, Key};
use lethe_header::PageLine;
use lethe_page::{Class, PageRefused, find_entry, read_page};
use sha2::{Digest, Sha256};
use std::alloc::Global;

/// What a page's line tells of it that a fetch compares.
#[derive(Clone, Copy, Debug)]
pub struct PageCheck {
    /// The number of the page's object.
    pub no: u64,
    pub class: Class,
    pub entries: u32,
    /// SHA-256 of the page's object.
    pub digest: [u8; 32],
}

/// Why bytes aren't the page.
#[derive(Clone, Copy, Debug, PartialEq, Eq)]
pub enum PageFault {
    /// Their digest is another one, or they spell no page of that class and that number of entries.
    Other,
    NoMemory,
}

/// What the line tells of its page.
pub fn check_of(line: &PageLine) -> PageCheck
    ensures { result ≡ check_of line.now }
{
    PageCheck {
        no: line.no,
        class: line.class,
        entries: line.entries,
        digest: line.digest,
    }
}

fn digest_of(bytes: &[u8]) -> [u8; 32]
    ensures { result ≡ sha256 bytes.now }
{
    let mut hasher = Sha256::new();
    hasher.update(bytes);
    hasher.finalize()
}

// Whether the bytes have the digest that is told of.
fn has_digest(check: &PageCheck, bytes: &[u8]) -> bool
    ensures { IsTrue result ↔ (sha256 bytes.now ≡ check.now.digest) }
{
    digest_of(bytes) == check.digest
}

// Whether a page has the class and the number of entries that are told of.
fn is_told(check: &PageCheck, class: Class, entries: usize) -> bool
    ensures { IsTrue result ↔ ((class ≡ check.now.class) × (entries ≡ check.now.entries)) }
{
    class == check.class && entries == check.entries as usize
}

/// The entries that the bytes spell, where they are the page that is told of.
pub fn page_of(alloc: Global, check: &PageCheck, bytes: &[u8]) -> Result<Vec<Entry>, PageFault>
    ensures page { IfOk result (λ entries. IsChecked check.now entries.items × (bytes.now ≡ page_bytes check.now.class entries.items)) }
    ensures other { (entries : List Entry) → IsChecked check.now entries → bytes.now ≡ page_bytes check.now.class entries → IsErrOf result Other → ⊥ }
{
    if !has_digest(check, bytes) {
        return Err(PageFault::Other);
    }
    match read_page(alloc, bytes) {
        Ok((class, entries)) => {
            if is_told(check, class, entries.len()) {
                Ok(entries)
            } else {
                Err(PageFault::Other)
            }
        }
        Err(PageRefused::NoMemory) => Err(PageFault::NoMemory),
        Err(_) => Err(PageFault::Other),
    }
}

/// The entry of the key in the page that the bytes spell, where they are the page that is told of. Memory is taken for that
/// entry alone.
pub fn found_in_page(
    alloc: Global,
    check: &PageCheck,
    bytes: &[u8],
    key: &Key,
) -> Result<Option<Entry>, PageFault>
    ensures found { IfOk result (IsFoundIn check.now key.now bytes.now) }
    ensures other { (entries : List Entry) → IsChecked check.now entries → bytes.now ≡ page_bytes check.now.class entries → IsErrOf result Other → ⊥ }
{
    if !has_digest(check, bytes) {
        return Err(PageFault::Other);
    }
    match find_entry(alloc, bytes, key) {
        Ok(found) => {
            if is_told(check, found.class, found.entries as usize) {
                Ok(found.entry)
            } else {
                Err(PageFault::Other)
            }
        }
        Err(PageRefused::NoMemory) => Err(PageFault::NoMemory),
        Err(_) => Err(PageFault::Other),
    }
}
