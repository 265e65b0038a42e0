//! The entries of a tile in the order of their keys.
ghost use Rattle.std.specs.Prelude.{◌≡◌, ◌+◌, ◌<◌, ◌≤◌, ◌++◌, map, filter, flat_map, length, reverse, All, AllPairs, Any, Contains, IfOk, OnOk, IsErrOf, IsPermutation};
ghost use Rattle.lethe_base.specs.Entries.{IsAscending};
ghost use Rattle.lethe_base.specs.declared.entry.Entry.{Entry};
ghost use Rattle.lethe_base.specs.declared.name.Name.{Name};
ghost use Rattle.lethe_disk.specs.Reads.{HasReadCause, IsFault};
ghost use Rattle.lethe_disk.specs.declared.cursor.ReadRefused.TheVariants.{Damaged};
ghost use Rattle.lethe_header.specs.Woven.{HaveDistinctKeys};
ghost use Rattle.lethe_file.specs.Agreement.{entries_in};
ghost use Rattle.lethe_file.specs.Between.{is_in};
ghost use Rattle.lethe_file.specs.Damage.{IsDamagedIn, IsVouchedIn};
ghost use Rattle.lethe_file.specs.Waiting.{IsWritten, of_waiting, waits_in};

use crate::fetching::fetch_checked;
use crate::holding::HeldPage;
use crate::range::KeyRange;
use crate::source::PageSource;
use lethe_base::Entry;
use lethe_disk::ReadRefused;
use std::alloc::Global;

/// Puts the entries into the order of their keys.
fn sort_by_key(entries: &mut Vec<Entry>)
    ensures same { IsPermutation entries.old.items entries.new.items }
    ensures order { HaveDistinctKeys entries.old.items → IsAscending entries.new.items }
{
    entries.sort_unstable_by(|entry, other| entry.key.cmp(&other.key));
}

/// Leaves the entries whose keys are in the range.
fn keep_in(entries: &mut Vec<Entry>, range: &KeyRange)
    ensures { entries.new.items ≡ filter (λ entry. is_in range.now.lo range.now.hi entry.key) entries.old.items }
{
    entries.retain(|entry| range.has(&entry.key));
}

/// The entries in the range of these pages, page by page.
fn collect<S: PageSource>(
    alloc: Global,
    port: &mut S::Port,
    pages: &[HeldPage<S::Page>],
    range: &KeyRange,
) -> Result<Vec<Entry>, ReadRefused>
    ensures given { S.tells → IfOk result (λ entries. entries.items ≡ filter (λ entry. is_in range.now.lo range.now.hi entry.key)
        (flat_map (λ page. entries_in page.bytes) (waits_in S.page_bytes pages.now))) }
    ensures vouched { IfOk result (λ entries. (entry : Entry) → Contains entries.items entry → Any (IsVouchedIn entry) (waits_in S.page_bytes pages.now)) }
    ensures fetches { OnOk result (S.fetches port.new ≡ S.fetches port.old + length pages.now) }
    ensures later { S.fetches port.old ≤ S.fetches port.new }
    ensures at_most { S.fetches port.new ≤ S.fetches port.old + length pages.now }
    ensures damaged { (name : Name) → IsErrOf result (Damaged name) → Any (IsDamagedIn S.tells name) (waits_in S.page_bytes pages.now) × (S.fetches port.old < S.fetches port.new) }
    ensures undamaged { S.tells → All IsWritten (waits_in S.page_bytes pages.now) → (name : Name) → IsErrOf result (Damaged name) → ⊥ }
    ensures cause { HasReadCause (S.port_faults port.old) (S.port_faults port.new) result }
    ensures can_fail { IsFault result → S.ports_fail }
{
    let before = S::count_faults(port);
    let mut all = Vec::new(alloc);
    for held in pages {
        match fetch_checked::<S>(alloc, port, &held.check, &held.page) {
            Ok(mut entries) => {
                keep_in(&mut entries, range);
                all.append(&mut entries)?;
            }
            Err(why) => return Err(why.since(before)),
        }
    }
    Ok(all)
}

/// The entries in the range of a tile's pages, the greatest key first.
pub fn fetch_tile<S: PageSource>(
    alloc: Global,
    port: &mut S::Port,
    pages: &[HeldPage<S::Page>],
    range: &KeyRange,
) -> Result<Vec<Entry>, ReadRefused>
    ensures given { S.tells → IsAscending (of_waiting range.now.lo range.now.hi (waits_in S.page_bytes pages.now))
        → IfOk result (λ entries. reverse entries.items ≡ of_waiting range.now.lo range.now.hi (waits_in S.page_bytes pages.now)) }
    ensures vouched { IfOk result (λ entries. (entry : Entry) → Contains entries.items entry → Any (IsVouchedIn entry) (waits_in S.page_bytes pages.now)) }
    ensures fetches { OnOk result (S.fetches port.new ≡ S.fetches port.old + length pages.now) }
    ensures later { S.fetches port.old ≤ S.fetches port.new }
    ensures at_most { S.fetches port.new ≤ S.fetches port.old + length pages.now }
    ensures damaged { (name : Name) → IsErrOf result (Damaged name) → Any (IsDamagedIn S.tells name) (waits_in S.page_bytes pages.now) × (S.fetches port.old < S.fetches port.new) }
    ensures undamaged { S.tells → All IsWritten (waits_in S.page_bytes pages.now) → (name : Name) → IsErrOf result (Damaged name) → ⊥ }
    ensures cause { HasReadCause (S.port_faults port.old) (S.port_faults port.new) result }
    ensures can_fail { IsFault result → S.ports_fail }
{
    let mut entries = collect::<S>(alloc, port, pages, range)?;
    sort_by_key(&mut entries);
    entries.reverse();
    Ok(entries)
}
