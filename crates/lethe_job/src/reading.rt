//! Reading all entries of files.
ghost use Rattle.std.specs.Prelude.{◌≡◌, ◌+◌, ◌≤◌, ◌<◌, ◌++◌, map, length, All, Any, OnOk, IsErrOf};
ghost use Rattle.lethe_base.specs.Layout as layout;
ghost use Rattle.lethe_base.specs.Spelling.{HasSpelling};
ghost use Rattle.lethe_base.specs.declared.name.Name.{Name};
ghost use Rattle.lethe_disk.specs.Reads.{HasReadCause, IsFault};
ghost use Rattle.lethe_disk.specs.declared.cursor.ReadRefused.TheVariants.{Damaged};
ghost use Rattle.lethe_file.specs.Agreement.{FileAgrees};
ghost use Rattle.lethe_follows.specs.Merged as merged;
ghost use Rattle.lethe_header.specs.Headers.{entries_in};
ghost use Rattle.lethe_stored.specs.Files.{file_of, lines_in};
ghost use Rattle.lethe_job.specs.Tasks.{AreSound, HasDamaged, counted_in, pages_in, plain_file};

use crate::filed::Filed;
use lethe_base::Entry;
use lethe_disk::{Disk, ReadRefused};
use lethe_file::FileView;
use std::alloc::Global;

/// How many pages the file has.
fn count_pages<D: Disk>(file: &FileView<D>) -> usize
    ensures { result ≡ length file.now.pages.items }
{
    let mut count = 0;
    for tile in file.header().tiles.items() {
        count += tile.pages.items().len();
    }
    count
}

/// Adds the entries of the file, one page after another.
fn add_file<D: Disk>(
    alloc: Global,
    port: &mut D::Port,
    filed: &Filed<D>,
    entries: &mut Vec<Entry>,
) -> Result<(), ReadRefused>
    ensures given { D.tells → OnOk result (entries.new.items ≡ entries.old.items ++ layout.entries_of (file_of (plain_file filed.now))) }
    ensures spelled { All HasSpelling entries.old.items → OnOk result (All HasSpelling entries.new.items) }
    // On any disk, as many as the file's header counts.
    ensures counted { OnOk result (length entries.new.items ≡ length entries.old.items + entries_in (lines_in (plain_file filed.now))) }
    ensures fetches { OnOk result (D.fetches port.new ≡ D.fetches port.old + length (lines_in (plain_file filed.now))) }
    ensures at_most { D.fetches port.new ≤ D.fetches port.old + length (lines_in (plain_file filed.now)) }
    ensures damaged { (name : Name) → IsErrOf result (Damaged name) → HasDamaged D.tells name (plain_file filed.now) × (D.fetches port.old < D.fetches port.new) }
    ensures later { D.fetches port.old ≤ D.fetches port.new }
    ensures undamaged { D.tells → FileAgrees (plain_file filed.now).header.tiles (plain_file filed.now).pages → (name : Name) → IsErrOf result (Damaged name) → ⊥ }
    ensures cause { HasReadCause (D.port_faults port.old) (D.port_faults port.new) result }
    ensures can_fail { IsFault result → D.ports_fail }
{
    let before = D::port_faults(port);
    let file = filed.file.file();
    for place in 0..count_pages(file) {
        match file.fetch_page(alloc, port, place) {
            Ok(mut fetched) => entries.append(&mut fetched)?,
            Err(why) => return Err(why.since(before)),
        }
    }
    Ok(())
}

/// Adds the entries of the files, one file after another.
pub fn add_files<D: Disk>(
    alloc: Global,
    port: &mut D::Port,
    files: &[Filed<D>],
    entries: &mut Vec<Entry>,
) -> Result<(), ReadRefused>
    ensures given { D.tells → OnOk result (entries.new.items ≡ entries.old.items ++ merged.entries_in (map plain_file files.now)) }
    ensures spelled { All HasSpelling entries.old.items → OnOk result (All HasSpelling entries.new.items) }
    ensures counted { OnOk result (length entries.new.items ≡ length entries.old.items + counted_in (map plain_file files.now)) }
    ensures fetches { OnOk result (D.fetches port.new ≡ D.fetches port.old + pages_in (map plain_file files.now)) }
    ensures at_most { D.fetches port.new ≤ D.fetches port.old + pages_in (map plain_file files.now) }
    ensures damaged { (name : Name) → IsErrOf result (Damaged name) → Any (HasDamaged D.tells name) (map plain_file files.now) × (D.fetches port.old < D.fetches port.new) }
    ensures later { D.fetches port.old ≤ D.fetches port.new }
    ensures undamaged { D.tells → AreSound (map plain_file files.now) → (name : Name) → IsErrOf result (Damaged name) → ⊥ }
    ensures cause { HasReadCause (D.port_faults port.old) (D.port_faults port.new) result }
    ensures can_fail { IsFault result → D.ports_fail }
{
    let before = D::port_faults(port);
    for filed in files {
        match add_file(alloc, port, filed, entries) {
            Ok(()) => {}
            Err(why) => return Err(why.since(before)),
        }
    }
    Ok(())
}
