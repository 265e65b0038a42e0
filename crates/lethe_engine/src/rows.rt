//! Changes of a store one behind another.
ghost use Rattle.std.specs.Prelude.{◌≡◌, None};
ghost use Rattle.lethe_core.specs.Running.{IsSound};
ghost use Rattle.lethe_core.specs.View.{view_of};
ghost use Rattle.lethe_engine.specs.Rows.{AnswersRow};

use crate::Engine;
use lethe_disk::Disk;
use lethe_row::{Asked, Row, record_row};
use std::alloc::Global;
use std::collections::VecDeque;

impl<D: Disk> Engine<D> {
    /// Makes the first ones of the changes one behind another, as many as the active segment has room for, and takes them out of the queue; of a store that is stopped, or whose
    /// places are used up, none. Each is durable by the sync that makes the next record durable, so that `k` changes take `3 k + 1` device calls, of which `k + 1` are syncs. None is
    /// answered before all are durable. The time of a put, and whether a delete leaves a tombstone, are decided by what stands before it, the changes of the row included. Where it is
    /// refused, the change that wasn't made is out of the queue, and where the disk failed maybe the one behind it.
    ///
    /// # Errors
    ///
    /// `Fault`, which stops the store: the first of the changes that weren't made failed. `NoMemory`.
    pub fn change_row(&mut self, alloc: Global, asked: &mut VecDeque<Asked>) -> Row
        // Opening gives this, and each call leaves it so.
        requires { IsSound D.tells (view_of self.old.core) }
        ensures answers { AnswersRow D.tells asked.old.items asked.new.items result.done result.refused (view_of self.old.core) (view_of self.new.core) }
        ensures certificates { self.new.certificates ≡ self.old.certificates }
        ensures pins { self.new.core.pins ≡ self.old.core.pins }
    {
        if self.core.state.stopped().is_some() {
            return Row {
                done: 0,
                refused: None,
            };
        }
        record_row(&mut self.core, alloc, asked)
    }
}
