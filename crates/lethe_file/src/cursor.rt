//! Reading the entries of a file one after another.
ghost use Rattle.std.specs.Prelude.{◌≡◌, ◌+◌, ◌<◌, ◌≤◌, [], length, None, Ok, IfOk, IfSome, OnOk, OnErr, IsErrOf};
ghost use Rattle.lethe_base.specs.declared.entry.Entry.{Entry};
ghost use Rattle.lethe_base.specs.declared.name.Name.{Name};
ghost use Rattle.lethe_disk.specs.Reads.{HasReadCause, IsFault, IsNext};
ghost use Rattle.lethe_disk.specs.declared.cursor.ReadRefused.TheVariants.{Damaged};
ghost use Rattle.lethe_file.specs.Damage.{damages_in, gives_in};
ghost use Rattle.lethe_file.specs.Waiting.{IsSoundIn, awaited_in, left_in};

use crate::unread::{Unread, fill};
use lethe_base::Entry;
use lethe_disk::{Cursor, Disk, ReadRefused};
use std::alloc::Global;

/// Gives the entries of a file whose keys are in a range, ascending. It holds the entries of one tile at a time, and what
/// the lines of the others tell of their pages.
#[derive(Drop)]
pub struct FileCursor<D: Disk> {
    pub(crate) unread: Unread<D::Page>,
}

impl<D: Disk> Cursor<D> for FileCursor<D> {
    ghost may_ask = { λ _. Unit {0} };

    ghost sound = { λ c. IsSoundIn D.tells D.page_bytes c.unread };

    ghost left = { λ c. left_in D.page_bytes c.unread };

    ghost awaits = { λ c. length (awaited_in D.page_bytes c.unread) };

    ghost damages = { λ c. damages_in D.tells D.page_bytes c.unread };

    ghost gives = { λ c. gives_in D.page_bytes c.unread };

    fn next(&mut self, alloc: Global, port: &mut D::Port) -> Result<Option<Entry>, ReadRefused>
        ensures given { D.tells → IsSoundIn D.tells D.page_bytes self.old.unread → IfOk result (λ next. IsNext next (left_in D.page_bytes self.old.unread) (left_in D.page_bytes self.new.unread)) }

        // A call that is refused may be made again.
        ensures kept { IsSoundIn D.tells D.page_bytes self.old.unread → OnErr result (left_in D.page_bytes self.new.unread ≡ left_in D.page_bytes self.old.unread) }
        ensures still_sound { IsSoundIn D.tells D.page_bytes self.old.unread → IsSoundIn D.tells D.page_bytes self.new.unread }

        // On any disk.
        ensures among { IfOk result (λ next. IfSome next (gives_in D.page_bytes self.old.unread)) }
        ensures no_more { OnOk result ((entry : Entry) → gives_in D.page_bytes self.new.unread entry → gives_in D.page_bytes self.old.unread entry) }

        // Each page that is awaited is fetched once.
        ensures once { OnOk result (D.fetches port.new + length (awaited_in D.page_bytes self.new.unread) ≡ D.fetches port.old + length (awaited_in D.page_bytes self.old.unread)) }
        ensures at_most { D.fetches port.new ≤ D.fetches port.old + length (awaited_in D.page_bytes self.old.unread) }
        ensures fetches { D.fetches port.old ≤ D.fetches port.new }
        ensures ended { result ≡ Ok None → length (awaited_in D.page_bytes self.new.unread) ≡ 0 }
        ensures damaged { (name : Name) → IsErrOf result (Damaged name) → damages_in D.tells D.page_bytes self.old.unread name × (D.fetches port.old < D.fetches port.new) }
        ensures fewer { (name : Name) → damages_in D.tells D.page_bytes self.new.unread name → damages_in D.tells D.page_bytes self.old.unread name }
        ensures undamaged { D.tells → IsSoundIn D.tells D.page_bytes self.old.unread → (name : Name) → IsErrOf result (Damaged name) → ⊥ }
        ensures cause { HasReadCause (D.port_faults port.old) (D.port_faults port.new) result }
        ensures can_fail { IsFault result → D.ports_fail }
    {
        fill::<D>(alloc, port, &mut self.unread)?;
        Ok(self.unread.entries.pop())
    }

    ghost ascends = { λ c _ s. s.ascending };
}
