//! A part of a store as a cursor.
ghost use Rattle.std.specs.Prelude.{◌≡◌, filter, reverse, IfOk};
ghost use Rattle.lethe_base.specs.Read.{is_between};
ghost use Rattle.lethe_read.specs.Parts.{Damages, IsSound, MayAsk, awaits_in, gives_in, left_in, part_ascends};

use lethe_base::{Entry, Key, NoMemory};
use lethe_disk::{Cursor, Disk, ReadRefused};
use lethe_mem::{Buffer, first_from};
use std::alloc::Global;

/// Gives the entries of a part of a store, ascending.
#[derive(Drop)]
pub enum Part<C> {
    /// Copies of a buffer's, of which the last comes first.
    Buffered(Vec<Entry>),
    /// What cursors over files give, one after another: the keys of each lie below those of the next, and the last is read first.
    Filed(Vec<C>),
}

impl<D: Disk, C: Cursor<D> + Drop> Cursor<D> for Part<C> {
    ghost may_ask = { MayAsk C.may_ask };

    ghost sound = { IsSound D.tells C.sound C.left };

    ghost left = { left_in C.left };

    ghost awaits = { awaits_in C.awaits };

    ghost damages = { Damages C.damages };

    ghost gives = { gives_in C.gives };

    ghost ascends = { part_ascends D.tells C.may_ask C.sound C.left };

    fn next(&mut self, alloc: Global, port: &mut D::Port) -> Result<Option<Entry>, ReadRefused> {
        match self {
            Part::Buffered(entries) => Ok(entries.pop()),
            Part::Filed(cursors) => {
                let before = D::port_faults(port);
                while let Some(cursor) = cursors.last_mut() {
                    match cursor.next(alloc, port) {
                        Ok(Some(entry)) => return Ok(Some(entry)),
                        Ok(None) => drop(cursors.pop()),
                        Err(why) => return Err(why.since(before)),
                    }
                }
                Ok(None)
            }
        }
    }
}

/// Copies of the buffer's entries of the keys from `lo` up to `hi`, which is excluded; the last comes first.
pub fn copies_between<B: Buffer>(
    alloc: Global,
    buffer: &B,
    lo: &Key,
    hi: &Key,
) -> Result<Vec<Entry>, NoMemory>
    ensures { IfOk result (λ entries. reverse entries.items ≡ filter (λ entry. is_between lo.now hi.now entry.key) (B.entries buffer.now)) }
{
    let mut entries = Vec::new(alloc);
    let first = first_from(buffer, lo);
    let end = first_from(buffer, hi);
    for place in first..end {
        if let Some(entry) = buffer.at(place) {
            entries.push(entry.copy()?)?;
        }
    }
    entries.reverse();
    Ok(entries)
}
