//! Cursors given out as one.
ghost use Rattle.std.specs.Prelude.{◌≡◌, sum_by, All, Any, IfOk};
ghost use Rattle.std.specs.List.{flat_map};
ghost use Rattle.lethe_base.specs.declared.entry.Entry.{Entry};
ghost use Rattle.lethe_base.specs.declared.name.Name.{Name};
ghost use Rattle.lethe_merge.specs.Merge.{merged};
ghost use Rattle.lethe_merge.specs.Sources.{AreSound, GivesMerged, IsMadeOf, awaits_in, left_merged};

use crate::joining::bare;
use crate::least::take_least;
use crate::source::{Head, Source};
use lethe_base::{Entry, NoMemory, Pending};
use lethe_disk::{Cursor, Disk, ReadRefused};
use std::alloc::Global;
use std::marker::PhantomData;

/// Gives the merged list of what its cursors give: each key once, in order, with what is left of it.
///
/// It holds one entry for each cursor. With k cursors an entry costs at most 2 k comparisons of keys, and no entry is copied.
#[derive(Drop)]
pub struct Merger<D: Disk, C: Cursor<D>> {
    sources: Vec<Source<C>>,
    erases: Vec<Pending>,
    alone: bool,
    disk: PhantomData<D>,
}

impl<D: Disk, C: Cursor<D> + Drop> Merger<D, C> {
    /// The merger of these cursors, the newest first. A put that an erase matches counts as a tombstone. Where the output
    /// is `alone`, nothing lies below it, and it has no tombstone and no `since`. No cursor is asked yet.
    pub fn new(
        alloc: Global,
        cursors: Vec<C>,
        erases: Vec<Pending>,
        alone: bool,
    ) -> Result<Merger<D, C>, NoMemory>
        requires { All C.may_ask cursors.items }
        ensures again { IfOk result (λ merger. ⟦<Merger<D, C> as Cursor<D>>⟧.may_ask merger) }
        ensures sound { All C.sound cursors.items → IfOk result (λ merger. ⟦<Merger<D, C> as Cursor<D>>⟧.sound merger) }
        ensures awaits { IfOk result (λ merger. ⟦<Merger<D, C> as Cursor<D>>⟧.awaits merger ≡ sum_by C.awaits cursors.items) }
        ensures damages { IfOk result (λ merger. (name : Name) → ⟦<Merger<D, C> as Cursor<D>>⟧.damages merger name → Any (λ cursor. C.damages cursor name) cursors.items) }
        ensures gives { IfOk result (λ merger. (entry : Entry) → ⟦<Merger<D, C> as Cursor<D>>⟧.gives merger entry
            → (from : Entry) × IsMadeOf from entry × Any (λ cursor. C.gives cursor from) cursors.items) }
        ensures left { IfOk result (λ merger. ⟦<Merger<D, C> as Cursor<D>>⟧.left merger ≡ merged (flat_map C.left cursors.items) erases.items alone) }
    {
        let mut sources = Vec::with_capacity(alloc, cursors.len())?;
        for cursor in cursors {
            sources.push(Source {
                cursor,
                head: Head::Unasked,
            })?;
        }
        Ok(Merger {
            sources,
            erases,
            alone,
            disk: PhantomData,
        })
    }
}

impl<D: Disk, C: Cursor<D>> Cursor<D> for Merger<D, C> {
    ghost may_ask = { λ m. All (λ source. C.may_ask source.cursor) m.sources.items };

    ghost sound = { λ m. AreSound D.tells C.sound C.left m.sources.items m.erases.items m.alone };

    ghost left = { λ m. left_merged C.left m.sources.items m.erases.items m.alone };

    ghost awaits = { λ m. sum_by (awaits_in C.awaits) m.sources.items };

    ghost damages = { λ m name. Any (λ source. C.damages source.cursor name) m.sources.items };

    ghost gives = { λ m. GivesMerged C.gives m.sources.items };

    ghost ascends = { λ m asked sound. sound.ascending };

    // Where the output is alone, tombstones are passed over. A cursor on a disk that tells nothing might give tombstones for
    // ever, so a call that has passed over 2^64 - 1 of them gives up as one that has no memory.
    fn next(&mut self, alloc: Global, port: &mut D::Port) -> Result<Option<Entry>, ReadRefused> {
        let before = D::port_faults(port);
        for _turn in 0..u64::MAX {
            for place in 0..self.sources.len() {
                let source = &mut self.sources[place];
                if let Head::Unasked = source.head {
                    match source.cursor.next(alloc, port) {
                        Ok(next) => source.keep(next),
                        Err(why) => return Err(why.since(before)),
                    }
                }
            }
            let Some(entry) = take_least(&mut self.sources, &self.erases) else {
                return Ok(None);
            };
            if let Some(entry) = bare(self.alone, entry) {
                return Ok(Some(entry));
            }
        }
        Err(ReadRefused::NoMemory)
    }
}
