//! Reading a page. A field is tested as soon as it is read whole, and the first fault from the left is told.
ghost use Rattle.std.specs.Prelude.{◌≡◌, List, IfOk, MatchResult};
ghost use Rattle.lethe_base.specs.declared.entry.Entry.{Entry};
ghost use Rattle.lethe_page.specs.Pages.{page_bytes, HasSpelling};
ghost use Rattle.lethe_page.specs.Reading.{GivesPage, page_at};
ghost use Rattle.lethe_page.specs.declared.class.Class.{Class};

use crate::entries::read_entries;
use crate::head::read_head;
use crate::{Class, PageRefused};
use lethe_base::Entry;
use std::alloc::Global;

#[tactic(auto, unfolding(crate::specs::Reading::page_at))]
fn read_all(alloc: Global, bytes: &[u8]) -> Result<(Class, Vec<Entry>), PageRefused>
    ensures { GivesPage result (page_at bytes.now) }
{
    let (class, count) = read_head(bytes)?;
    let (entries, end) = read_entries(alloc, class, count, bytes)?;
    if end < bytes.len() {
        return Err(PageRefused::Trailing { at: end as u64 });
    }
    Ok((class, entries.into_vec()))
}

/// The class and the entries that the bytes spell.
pub fn read_page(alloc: Global, bytes: &[u8]) -> Result<(Class, Vec<Entry>), PageRefused>
    // What is read is spelled so, each byte of it.
    ensures found { IfOk result (λ page. HasSpelling page.0 page.1.items × (bytes.now ≡ page_bytes page.0 page.1.items)) }

    // What is spelled so is read.
    ensures only { (class : Class) (entries : List Entry) → HasSpelling class entries → bytes.now ≡ page_bytes class entries
        → MatchResult result (λ page. (page.0 ≡ class) × (page.1.items ≡ entries)) (λ why. why ≡ PageRefused.NoMemory) }

    // Else it is the first fault from the left.
    ensures exact { GivesPage result (page_at bytes.now) }
{
    read_all(alloc, bytes)
}
