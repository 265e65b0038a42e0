//! Looking through files for the newest entry of a key.
ghost use Rattle.std.specs.Prelude.{◌≡◌, ◌≤◌, ◌<◌, ◌∷◌, [], map, flat_map, IsTrue, nat_lt};
ghost use Rattle.std.specs.Bool.{OnFalse};
ghost use Rattle.std.specs.Option.{IsSomeAnd};
ghost use Rattle.lethe_header.specs.Facts.{lines_of, max_seq_in};
ghost use Rattle.lethe_version.specs.Newest.{newer_of};
ghost use Rattle.lethe_version.specs.Search.{IsSearch};

use crate::Shared;
use crate::level::Level;
use lethe_base::{Entry, Key};
use lethe_disk::{Disk, ReadRefused};
use std::alloc::Global;

/// Whether the file can have an entry newer than this one.
fn can_be_newer<D: Disk>(file: &Shared<D>, newest: &Option<Entry>) -> bool
    ensures { OnFalse result (IsSomeAnd newest.now (λ entry. max_seq_in (lines_of file.now.file.value.header.tiles) ≤ entry.seq)) }
{
    match newest {
        Some(entry) => entry.seq < file.max_seq(),
        None => true,
    }
}

/// Of two entries the one of greater place, of equal places the first.
pub fn newer(newest: Option<Entry>, found: Option<Entry>) -> Option<Entry>
    ensures { result ≡ newer_of newest found }
{
    match (newest, found) {
        (Some(newest), Some(found)) => {
            if newest.seq < found.seq {
                Some(found)
            } else {
                Some(newest)
            }
        }
        (Some(newest), None) => Some(newest),
        (None, found) => found,
    }
}

/// The newer of a known entry and the file's. A file that can't have a newer one isn't asked.
fn look<D: Disk>(
    alloc: Global,
    port: &mut D::Port,
    key: &Key,
    file: &Shared<D>,
    newest: Option<Entry>,
) -> Result<Option<Entry>, ReadRefused>
    ensures { IsSearch (λ file. file.header) (λ file. map (λ page. D.page_bytes page.value) file.pages.items) D.tells D.ports_fail key.now (file.now.file.value ∷ []) newest
        (D.fetches port.old) (D.fetches port.new) (D.port_faults port.old) (D.port_faults port.new) result }
{
    if !can_be_newer(file, &newest) {
        return Ok(newest);
    }
    match file.file().find(alloc, port, key) {
        Ok(found) => Ok(newer(newest, found)),
        Err(why) => Err(why),
    }
}

/// The newest of a known entry and those of the files.
fn find_among<D: Disk>(
    alloc: Global,
    port: &mut D::Port,
    key: &Key,
    files: &[Shared<D>],
    newest: Option<Entry>,
) -> Result<Option<Entry>, ReadRefused>
    ensures { IsSearch (λ file. file.header) (λ file. map (λ page. D.page_bytes page.value) file.pages.items) D.tells D.ports_fail key.now (map (λ shared. shared.file.value) files.now) newest
        (D.fetches port.old) (D.fetches port.new) (D.port_faults port.old) (D.port_faults port.new) result }
{
    let before = D::port_faults(port);
    let mut newest = newest;
    for file in files {
        match look::<D>(alloc, port, key, file, newest) {
            Ok(newer) => newest = newer,
            Err(why) => return Err(why.since(before)),
        }
    }
    Ok(newest)
}

/// The newest entry among the files of the levels.
pub fn find_in<D: Disk>(
    alloc: Global,
    port: &mut D::Port,
    key: &Key,
    levels: &[Level<D>],
) -> Result<Option<Entry>, ReadRefused>
    ensures { IsSearch (λ file. file.header) (λ file. map (λ page. D.page_bytes page.value) file.pages.items) D.tells D.ports_fail key.now
        (flat_map (λ level. map (λ shared. shared.file.value) level.files.items) levels.now) None
        (D.fetches port.old) (D.fetches port.new) (D.port_faults port.old) (D.port_faults port.new) result }
{
    let before = D::port_faults(port);
    let mut newest = None;
    for level in levels {
        match find_among::<D>(alloc, port, key, level.candidates(key), newest) {
            Ok(found) => newest = found,
            Err(why) => return Err(why.since(before)),
        }
    }
    Ok(newest)
}
