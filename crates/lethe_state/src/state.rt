//! What a store remembers of itself.
ghost use Rattle.std.specs.Prelude as prelude;
ghost use Rattle.std.specs.Prelude.{◌≡◌, ◌↔◌, ◌<◌, [], None, IsTrue, IfErr, IfOk, OnOk, length};
ghost use Rattle.lethe_base.specs.Limits.{max_place};
ghost use Rattle.lethe_manifest.specs.Manifests.{HasSpelling};
ghost use Rattle.lethe_stored.specs.Files.{Parts};
ghost use Rattle.lethe_stored.specs.Levels.{HasFiles};
ghost use Rattle.lethe_stored.specs.Stored.{Stored, IsCoherent, pending_of};
ghost use Rattle.lethe_state.specs.Records.{MayRefuse};
ghost use Rattle.lethe_state.specs.Remembered.{IsCurrent, IsFresh, Remembers};
ghost use Rattle.lethe_state.specs.Writable.{IsWritable};

use crate::Firsts;
use lethe_base::{List, MAX_PLACE, NoMemory, Pending, Refused};
use lethe_manifest::Manifest;
use lethe_mem::VecBuffer;
use std::alloc::Global;

/// The place of the closed gate byte of a segment that has no record.
pub(crate) const FIRST_GATE: u64 = 11;

/// What a store remembers of itself, beside its files.
#[derive(Debug, Drop)]
pub struct State {
    /// The manifest that counts.
    pub(crate) manifest: Manifest,
    /// The first object number that hasn't been drawn since. A job draws numbers before a manifest tells of them.
    pub(crate) next: u64,
    /// How many changes there were. One that failed counts.
    pub(crate) count: u64,
    /// The pending erases, by their places: the manifest's and those that the segments record.
    pub(crate) pending: List<Pending>,
    /// The newest entry of each key that the active segment has.
    pub(crate) active: VecBuffer,
    /// How many records the active segment has.
    pub(crate) records: u64,
    /// The place of the closed gate byte that ends the active segment.
    pub(crate) end: u64,
    /// The least time of all records of the active segment, of replaced ones too, where one has a time.
    pub(crate) oldest: Option<u64>,
    /// The first places of the active segment.
    pub(crate) firsts: Firsts,
    /// The newest entry of each key of the frozen segment, where there is one.
    pub(crate) frozen: Option<VecBuffer>,
    /// The least time of all records of the frozen segment.
    pub(crate) frozen_oldest: Option<u64>,
    /// The first places of the frozen segment.
    pub(crate) frozen_firsts: Firsts,
    /// The place of the change or the work in which the disk failed. Nothing is changed behind it.
    pub(crate) stopped: Option<u64>,
}

impl State {
    /// What is remembered of a store that was opened: its journal is one segment without records.
    pub fn opened(alloc: Global, manifest: Manifest) -> Result<State, NoMemory>
        requires spelled { HasSpelling manifest }
        requires segments { length manifest.segments ≡ 1 }
        ensures writable { IfOk result IsWritable }
        ensures end { IfOk result (λ state. state.end ≡ 11) }
        ensures fresh { IfOk result (IsFresh manifest) }
        ensures remembers { (s : Stored) (levels : prelude.List (prelude.List Parts)) → IsCoherent s → HasFiles s levels → s.manifest ≡ manifest → s.frozen ≡ None
            → s.active.records ≡ [] → s.manifest.erases ≡ pending_of s → IfOk result (λ state. Remembers s state levels × IsCurrent s state) }
    {
        let pending = List::of(manifest.erases.items().to_vec(alloc)?);
        Ok(State {
            count: manifest.count,
            next: manifest.next,
            manifest,
            pending,
            active: VecBuffer::new(alloc),
            records: 0,
            end: FIRST_GATE,
            oldest: None,
            firsts: Firsts::default(),
            frozen: None,
            frozen_oldest: None,
            frozen_firsts: Firsts::default(),
            stopped: None,
        })
    }

    /// Whether the next change has a place.
    pub fn may_change(&self) -> Result<(), Refused>
        requires { IsWritable self.now }
        ensures refused { IfErr result (MayRefuse self.now) }
        ensures fits { OnOk result ((self.now.stopped ≡ None) × (self.now.count < max_place)) }
    {
        match self.stopped {
            Some(at) => Err(Refused::Stopped { at }),
            None if self.count >= MAX_PLACE => Err(Refused::Exhausted { last: MAX_PLACE }),
            None => Ok(()),
        }
    }

    /// Whether the active segment takes one more record.
    pub fn has_room(&self) -> bool
        ensures { IsTrue result ↔ (self.now.records < self.now.manifest.config.buffer) }
    {
        self.records < self.manifest.config.fields().buffer
    }
}
