//! A row of changes: one behind another, as long as the active segment has room.
ghost use Rattle.std.specs.Prelude.{◌≡◌, ◌≤◌, ◌<◌, ◌+◌, ◌⊎◌, ◌^◌, [], ◌∷◌, IfSome, None};
ghost use Rattle.lethe_base.specs.Limits.{max_place};
ghost use Rattle.lethe_state.specs.Writable.{IsWritable};
ghost use Rattle.lethe_core.specs.Running.{IsSound};
ghost use Rattle.lethe_core.specs.View.{view_of};
ghost use Rattle.lethe_row.specs.Along.{IsRow, ended_as};

use crate::Asked;
use crate::waiting::{count_last, hold, pass_on};
use lethe_base::{MAX_PLACE, Refused};
use lethe_core::Core;
use lethe_disk::Disk;
use std::alloc::Global;
use std::collections::VecDeque;

/// How far a row went.
#[derive(Debug, Drop)]
pub struct Row {
    /// How many changes were made: the first ones of those that were asked.
    pub done: u64,
    /// Why the next one wasn't, where the row didn't go on to the last one or until there was no room.
    pub refused: Option<Refused>,
}

/// Makes the first ones of the changes, as many as the active segment has room for, and takes them out of the queue. Each record is made durable by the sync that makes the
/// gate in front count, so that the row takes three device calls for each change and one more, of which a sync for each change and one more. Where it is refused, the change that wasn't
/// made is out of the queue, and where the disk failed maybe the one behind it.
///
/// # Errors
///
/// `Fault`, which stops the store, and `NoMemory`.
pub fn record_row<D: Disk>(core: &mut Core<D>, alloc: Global, asked: &mut VecDeque<Asked>) -> Row
    requires sound { IsSound D.tells (view_of core.old) }
    requires runs { core.old.state.stopped ≡ None }
    ensures row { IsRow D.tells asked.old.items asked.new.items result.done result.refused (view_of core.old) (view_of core.new) }
    ensures manifest { core.new.state.manifest ≡ core.old.state.manifest }
    ensures version { core.new.version ≡ core.old.version }
    ensures retired { core.new.retired ≡ core.old.retired }
    ensures flights { core.new.flights ≡ core.old.flights }
    ensures begun { core.new.begun ≡ core.old.begun }
    ensures pins { core.new.pins ≡ core.old.pins }
{
    let before = core.disk.faults();
    let Some(first) = next_with_room(core, asked, 0) else {
        return Row {
            done: 0,
            refused: None,
        };
    };
    let next = first.record(core);
    let mut waiting = match hold(core, alloc, before, next) {
        Ok(waiting) => waiting,
        Err(why) => {
            return Row {
                done: 0,
                refused: Some(why),
            };
        }
    };
    let mut done = 0;
    while let Some(change) = next_with_room(core, asked, 1) {
        let next = change.record_behind(core, &waiting.record);
        match pass_on(core, alloc, before, &mut waiting, next) {
            Ok(true) => done += 1,
            Ok(false) => {
                let last = count_last(core, before, waiting);
                return ended(last, done, Some(Refused::NoMemory));
            }
            Err(why) => {
                return Row {
                    done,
                    refused: Some(why),
                };
            }
        }
    }
    let last = count_last(core, before, waiting);
    ended(last, done, None)
}

/// The next change, where the active segment has room for its record and it has a place, behind so many records that wait. It leaves the queue.
fn next_with_room<D: Disk>(
    core: &Core<D>,
    asked: &mut VecDeque<Asked>,
    waiting: u64,
) -> Option<Asked>
    requires { IsWritable core.now.state }
    ensures some { IfSome result (λ change. (asked.old.items ≡ change ∷ asked.new.items) × (core.now.state.records + waiting < core.now.state.manifest.config.buffer) × (core.now.state.count + waiting < max_place)) }
    ensures none { result ≡ None → (asked.new.items ≡ asked.old.items)
        × ((asked.old.items ≡ []) ⊎ (core.now.state.manifest.config.buffer ≤ core.now.state.records + waiting) ⊎ (max_place ≤ core.now.state.count + waiting)) }
{
    let state = &core.state;
    let buffer = state.manifest().config.fields().buffer;
    let room = buffer.saturating_sub(state.records());
    let places = MAX_PLACE.saturating_sub(state.count());
    if room <= waiting || places <= waiting {
        return None;
    }
    asked.pop_front()
}

/// What becomes of a row whose last record was made to count, or wasn't.
fn ended(last: Result<u64, Refused>, done: u64, refused: Option<Refused>) -> Row
    requires { done + 1 < 2 ^ 64 }
    ensures { result ≡ ended_as last done refused }
{
    match last {
        Ok(_) => Row {
            done: done + 1,
            refused,
        },
        Err(why) => Row {
            done,
            refused: Some(why),
        },
    }
}
