//! The changes of a row, and their records.
ghost use Rattle.std.specs.Prelude.{◌≡◌, ◌+◌, ◌<◌, ◌^◌, ℕ};
ghost use Rattle.lethe_base.specs.Limits.{max_place};
ghost use Rattle.lethe_segment.specs.Records.{RecordHasSpelling, record_seq};
ghost use Rattle.lethe_advance.specs.Shown.{parts_by_level};
ghost use Rattle.lethe_state.specs.Records.{IsNext, headers_in};
ghost use Rattle.lethe_state.specs.Writable.{IsWritable};
ghost use Rattle.lethe_state.specs.declared.state.State as state;
ghost use Rattle.lethe_row.specs.Rows.{IsRecordOf, IsWithin};

use lethe_base::{Key, Range, Value};
use lethe_core::Core;
use lethe_disk::Disk;
use lethe_segment::Record;

/// A change of a row.
#[derive(Debug, Drop)]
pub enum Asked {
    /// Sets the delete key and the value of a key.
    Put { key: Key, dkey: u64, value: Value },
    /// Removes a key.
    Delete { key: Key },
    /// Erases the values whose delete keys lie in a range.
    Erase { range: Range },
}

impl Asked {
    /// The record of the change, where it is the next one.
    pub fn record<D: Disk>(self, core: &Core<D>) -> Record
        requires writable { IsWritable core.now.state }
        requires fits { core.now.state.count < max_place }
        ensures within { IsWithin self }
        ensures spelled { RecordHasSpelling result }
        ensures place { record_seq result ≡ core.now.state.count + 1 }
        ensures is { IsRecordOf core.now.state (headers_in (parts_by_level core.now.version)) self result }
    {
        match self {
            Asked::Put { key, dkey, value } => core.state.put_record(key, dkey, value),
            Asked::Delete { key } => core.state.delete_record(&core.version, key),
            Asked::Erase { range } => core.state.erase_record(range),
        }
    }

    /// The record of the change, where it is the one behind the record that waits.
    pub fn record_behind<D: Disk>(self, core: &Core<D>, front: &Record) -> Record
        requires writable { IsWritable core.now.state }
        requires front { RecordHasSpelling front.now }
        requires fits { core.now.state.count + 1 < max_place }
        ensures within { IsWithin self }
        ensures spelled { RecordHasSpelling result }
        ensures place { record_seq result ≡ core.now.state.count + 2 }
        ensures is { (then : state.State) (end : ℕ) → IsNext front.now end core.now.state then → IsRecordOf then (headers_in (parts_by_level core.now.version)) self result }
    {
        match self {
            Asked::Put { key, dkey, value } => {
                core.state.put_record_behind(front, key, dkey, value)
            }
            Asked::Delete { key } => { core.state.delete_record_behind(&core.version, front, key) }
            Asked::Erase { range } => core.state.erase_record_behind(front, range),
        }
    }
}
