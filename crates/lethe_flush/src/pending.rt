//! The pending erases, and the place up to which files have been swept.
ghost use Rattle.std.specs.Prelude.{◌≡◌, ◌++◌, filter_map, map, IfOk, OnOk};
ghost use Rattle.lethe_base.specs.Spent.{least};
ghost use Rattle.lethe_stored.specs.Stored.{erase_of, in_order};
ghost use Rattle.lethe_flush.specs.ByPlace.{with_erases};

use lethe_base::{NoMemory, Pending};
use lethe_manifest::Cited;
use lethe_segment::Record;
use std::alloc::Global;
use std::collections::BTreeMap;

/// The pending erases of a manifest and of records: ascending by place, of equal places the first alone.
pub fn pending_of(
    alloc: Global,
    erases: &[Pending],
    records: &[Record],
) -> Result<Vec<Pending>, NoMemory>
    ensures { IfOk result (λ pending. pending.items ≡ in_order (erases.now ++ filter_map erase_of records.now)) }
{
    // From the last to the first, so that of equal places the first stays.
    let mut by_place = BTreeMap::new(alloc);
    add_recorded(&mut by_place, records)?;
    add_erases(&mut by_place, erases)?;
    Ok(by_place.into_values().collect(alloc)?)
}

fn add_erases(by_place: &mut BTreeMap<u64, Pending>, erases: &[Pending]) -> Result<(), NoMemory>
    ensures { OnOk result (by_place.new.entries ≡ with_erases erases.now by_place.old.entries) }
{
    for erase in erases.iter().rev() {
        by_place.insert(erase.seq, *erase)?;
    }
    Ok(())
}

fn add_recorded(by_place: &mut BTreeMap<u64, Pending>, records: &[Record]) -> Result<(), NoMemory>
    ensures { OnOk result (by_place.new.entries ≡ with_erases (filter_map erase_of records.now) by_place.old.entries) }
{
    for record in records.iter().rev() {
        if let Record::Erase(erase) = record {
            by_place.insert(erase.seq, *erase)?;
        }
    }
    Ok(())
}

/// The place up to which all of the files are swept. None where there is no file.
pub fn swept_upto(files: &[Cited]) -> Option<u64>
    ensures { result ≡ least (map (λ file. file.swept) files.now) }
{
    files.iter().map(|file| file.swept).min()
}
