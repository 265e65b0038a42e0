//! Making a list of changes.
ghost use Rattle.std.specs.Prelude.{◌≡◌, ◌≤◌, ◌<◌, ◌+◌, ◌^◌, [], Some, IfErr, IsErrOf, OnOk, length, vec_capacity};
ghost use Rattle.std.specs.List.{range_with_len};
ghost use Rattle.std.specs.Result.{result_err};
ghost use Rattle.lethe_base.specs.declared.name.Name.{Name};
ghost use Rattle.lethe_base.specs.declared.refused.Refused.TheVariants.{Damaged};
ghost use Rattle.lethe_core.specs.Asked.{Makes};
ghost use Rattle.lethe_stored.specs.Stored.{Stored};
ghost use Rattle.lethe_state.specs.Room.{HasRoom};
ghost use Rattle.lethe_core.specs.Reasons.{HasDamagedPage};
ghost use Rattle.lethe_core.specs.Running.{Holds, IsSound};
ghost use Rattle.lethe_core.specs.View.{face_of, view_of};
ghost use Rattle.lethe_engine.specs.ChangeRows.{call_of};
ghost use Rattle.lethe_engine.specs.Answers.{Answers};
ghost use Rattle.lethe_engine.specs.Refusals.{HasReasonOfChange};
ghost use Rattle.lethe_changes.specs.Changes.{AnswersAll, IsMadeAlone, counts_of, point_of};

use lethe_base::Refused;
use lethe_disk::Disk;
use lethe_engine::{Asked, Engine, Row};
use std::alloc::Global;
use std::collections::VecDeque;

/// What became of a list of changes.
#[derive(Debug, Drop)]
pub struct Changed {
    /// The places of the changes that were made, in their order: the first ones of those that were asked.
    pub places: Vec<u64>,
    /// Why the next one wasn't, where one wasn't.
    pub refused: Option<Refused>,
}

/// Makes the changes one behind another, in rows: where the active segment is full the row ends, the next change makes room as one by itself does, with files read through the port, and
/// the ones behind it are a row again. It answers the places of those that were made, and why the one behind them wasn't, where it wasn't; those behind that one aren't made either. None
/// is answered before all that were made are durable. A row of `k` changes takes `3 k + 1` device calls, of which `k + 1` are syncs.
///
/// # Errors
///
/// Those of a change by itself. Room for the places is taken before any change is made.
pub fn change_all<D: Disk>(
    engine: &mut Engine<D>,
    alloc: Global,
    port: &mut D::Port,
    asked: Vec<Asked>,
) -> Changed
    // Opening gives this, and each call leaves it so.
    requires { IsSound D.tells (view_of engine.old.core) }
    ensures answers { AnswersAll D.tells D.ports_fail asked.items (length result.places.items) result.refused (counts_of (D.fetches port.old) (D.port_faults port.old))
        (counts_of (D.fetches port.new) (D.port_faults port.new)) (view_of engine.old.core) (view_of engine.new.core) }
    ensures places { result.places.items ≡ range_with_len (engine.old.core.state.count + 1) (length result.places.items) }
    ensures port_faults { D.port_faults port.old ≤ D.port_faults port.new }
    // On any disk: where a page is told as damaged, a fetch was made in this call, and it is one of a file of the version behind it.
    ensures damaged { (name : Name) → result.refused ≡ Some (Damaged name) → HasDamagedPage engine.new.core name × (D.fetches port.old < D.fetches port.new) }
    ensures fetches { D.fetches port.old ≤ D.fetches port.new }
    ensures certificates { engine.new.certificates ≡ engine.old.certificates }
    ensures pins { engine.new.core.pins ≡ engine.old.core.pins }
{
    let Ok(places) = Vec::with_capacity(alloc, asked.len()) else {
        return Changed {
            places: Vec::new(alloc),
            refused: Some(Refused::NoMemory),
        };
    };
    let count = engine.count();
    let Row { done, refused } = make_all(engine, alloc, port, asked);
    Changed {
        places: places_behind(places, count, done),
        refused,
    }
}

/// Makes the changes, as many as can be made.
fn make_all<D: Disk>(
    engine: &mut Engine<D>,
    alloc: Global,
    port: &mut D::Port,
    asked: Vec<Asked>,
) -> Row
    requires { IsSound D.tells (view_of engine.old.core) }
    ensures answers { AnswersAll D.tells D.ports_fail asked.items result.done result.refused (counts_of (D.fetches port.old) (D.port_faults port.old))
        (counts_of (D.fetches port.new) (D.port_faults port.new)) (view_of engine.old.core) (view_of engine.new.core) }
    ensures port_faults { D.port_faults port.old ≤ D.port_faults port.new }
    ensures damaged { (name : Name) → result.refused ≡ Some (Damaged name) → HasDamagedPage engine.new.core name × (D.fetches port.old < D.fetches port.new) }
    ensures fetches { D.fetches port.old ≤ D.fetches port.new }
    ensures certificates { engine.new.certificates ≡ engine.old.certificates }
    ensures pins { engine.new.core.pins ≡ engine.old.core.pins }
{
    let mut left = VecDeque::from(asked);
    let mut done = 0;
    loop {
        let row = engine.change_row(alloc, &mut left);
        done += row.done;
        if row.refused.is_some() {
            return Row {
                done,
                refused: row.refused,
            };
        }
        let Some(change) = left.pop_front() else {
            return Row {
                done,
                refused: None,
            };
        };
        match change_one(engine, alloc, port, change) {
            Ok(_) => done += 1,
            Err(why) => {
                return Row {
                    done,
                    refused: Some(why),
                };
            }
        }
    }
}

/// Makes a change by itself.
fn change_one<D: Disk>(
    engine: &mut Engine<D>,
    alloc: Global,
    port: &mut D::Port,
    change: Asked,
) -> Result<u64, Refused>
    requires { IsSound D.tells (view_of engine.old.core) }
    ensures answers { Answers D.tells (Makes (call_of change)) (result_err result) (face_of (view_of engine.old.core)) (view_of engine.old.core) (view_of engine.new.core) }
    ensures why { IfErr result (HasReasonOfChange D.tells D.ports_fail (view_of engine.old.core) (view_of engine.new.core) (D.port_faults port.old) (D.port_faults port.new)) }
    ensures port_faults { D.port_faults port.old ≤ D.port_faults port.new }
    ensures written { D.tells → (s : Stored) → Holds (view_of engine.old.core) s → (HasRoom s → ⊥)
        → OnOk result ((t : Stored)
        × IsMadeAlone (view_of engine.old.core) (point_of s (view_of engine.old.core) (D.fetches port.old)) change (point_of t (view_of engine.new.core) (D.fetches port.new))
        × Holds (view_of engine.new.core) t) }
    ensures damaged { (name : Name) → IsErrOf result (Damaged name) → HasDamagedPage engine.new.core name × (D.fetches port.old < D.fetches port.new) }
    ensures fetches { D.fetches port.old ≤ D.fetches port.new }
    ensures certificates { engine.new.certificates ≡ engine.old.certificates }
    ensures pins { engine.new.core.pins ≡ engine.old.core.pins }
{
    match change {
        Asked::Put { key, dkey, value } => engine.put(alloc, port, key, dkey, value),
        Asked::Delete { key } => engine.delete(alloc, port, key),
        Asked::Erase { range } => engine.erase(alloc, port, range),
    }
}

/// So many places behind `count` of them, in memory that was taken.
fn places_behind(mut places: Vec<u64>, count: u64, done: u64) -> Vec<u64>
    requires empty { places.items ≡ [] }
    requires room { done ≤ vec_capacity places }
    requires fits { count + done < 2 ^ 64 }
    ensures { result.items ≡ range_with_len (count + 1) done }
{
    for n in 0..done {
        places.push(count + n + 1).unwrap();
    }
    places
}
