//! What a cursor has still to give.
ghost use Rattle.std.specs.Prelude.{◌≡◌, ◌+◌, ◌<◌, ◌≤◌, [], length, OnOk, IsErrOf};
ghost use Rattle.lethe_base.specs.declared.entry.Entry.{Entry};
ghost use Rattle.lethe_base.specs.declared.name.Name.{Name};
ghost use Rattle.lethe_disk.specs.Reads.{HasReadCause, IsFault};
ghost use Rattle.lethe_disk.specs.declared.cursor.ReadRefused.TheVariants.{Damaged};
ghost use Rattle.lethe_file.specs.Damage.{damages_in, gives_in};
ghost use Rattle.lethe_file.specs.Waiting.{IsSoundIn, awaited_in, left_in};

use crate::collecting::fetch_tile;
use crate::holding::HeldPage;
use crate::range::KeyRange;
use crate::source::PageSource;
use lethe_base::{Entry, List};
use lethe_disk::ReadRefused;
use std::alloc::Global;

/// The entries of a range that were not given yet.
#[derive(Drop)]
pub struct Unread<P> {
    pub range: KeyRange,
    /// Of each tile that is still to be fetched its pages, the last tile first.
    pub tiles: Vec<List<HeldPage<P>>>,
    /// What is left of the tile that was fetched last, the greatest key first.
    pub entries: Vec<Entry>,
}

/// Fetches tiles until there is an entry to give, or no tile. A tile is let go once its pages were fetched.
pub fn fill<S: PageSource>(
    alloc: Global,
    port: &mut S::Port,
    unread: &mut Unread<S::Page>,
) -> Result<(), ReadRefused>
    ensures left { IsSoundIn S.tells S.page_bytes unread.old → left_in S.page_bytes unread.new ≡ left_in S.page_bytes unread.old }
    ensures sound { IsSoundIn S.tells S.page_bytes unread.old → IsSoundIn S.tells S.page_bytes unread.new }
    ensures filled { OnOk result (unread.new.entries.items ≡ [] → unread.new.tiles.items ≡ []) }
    ensures once { OnOk result (S.fetches port.new + length (awaited_in S.page_bytes unread.new) ≡ S.fetches port.old + length (awaited_in S.page_bytes unread.old)) }
    ensures at_most { S.fetches port.new ≤ S.fetches port.old + length (awaited_in S.page_bytes unread.old) }
    ensures fetches { S.fetches port.old ≤ S.fetches port.new }
    ensures damaged { (name : Name) → IsErrOf result (Damaged name) → damages_in S.tells S.page_bytes unread.old name × (S.fetches port.old < S.fetches port.new) }
    ensures fewer { (name : Name) → damages_in S.tells S.page_bytes unread.new name → damages_in S.tells S.page_bytes unread.old name }
    ensures given { (entry : Entry) → gives_in S.page_bytes unread.new entry → gives_in S.page_bytes unread.old entry }
    ensures undamaged { IsSoundIn S.tells S.page_bytes unread.old → (name : Name) → IsErrOf result (Damaged name) → ⊥ }
    ensures cause { HasReadCause (S.port_faults port.old) (S.port_faults port.new) result }
    ensures can_fail { IsFault result → S.ports_fail }
{
    let before = S::count_faults(port);
    while unread.entries.is_empty() {
        let Some(tile) = unread.tiles.last() else {
            return Ok(());
        };
        match fetch_tile::<S>(alloc, port, tile.items(), &unread.range) {
            Ok(entries) => unread.entries = entries,
            Err(why) => return Err(why.since(before)),
        }
        let _ = unread.tiles.pop();
    }
    Ok(())
}
