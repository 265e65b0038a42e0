//! What a store held at a point.
ghost use Rattle.std.specs.Prelude.{Contains, ◌≡◌, ◌<◌, ◌≤◌, ◌+◌, ℕ, true, false, sum_by, IfErr, IfOk, IfSome, OnOk, IsErrOf, if◌then◌else◌};
ghost use Rattle.std.specs.Ordering.{is_lt};
ghost use Rattle.lethe_base.specs.Counts.{Rose};
ghost use Rattle.lethe_base.specs.Keys.{Bytes, key_cmp};
ghost use Rattle.lethe_base.specs.History.{History, after};
ghost use Rattle.lethe_base.specs.Matching.{answer_under};
ghost use Rattle.lethe_base.specs.Read.{Get, Scan, Found, Listed, answer};
ghost use Rattle.lethe_base.specs.declared.name.Name.{Name};
ghost use Rattle.lethe_base.specs.declared.refused.Refused.TheVariants.{Damaged, ReadFault};
ghost use Rattle.lethe_read.specs.Between.{AreListedBetween, by_keys};
ghost use Rattle.lethe_read.specs.Found.{IsBacked, buffered_entry, frozen_entries, is_buffered};
ghost use Rattle.lethe_read.specs.Refusals.{IsReadRefusal};
ghost use Rattle.lethe_version.specs.Probing.{bound};
ghost use Rattle.lethe_version.specs.Versions.{IsDamagedInAny, IsDamagedOf, IsVouchedBy, files_of, pages_between};
ghost use Rattle.lethe_snapshot.specs.Points.{IsOf, snapshot_of};

use crate::Contents;
use lethe_base::{Key, List, Pending, Refused, Value};
use lethe_disk::Disk;
use lethe_mem::VecBuffer;
use lethe_pins::HeldPin;
use lethe_read::{get, scan, told_as};
use lethe_version::Version;
use std::alloc::Global;

/// What a store held at a point: its files, which are shared, and copies of its buffers and pending erases, with the pin for which its pages stay. It never changes.
/// It can't be dropped: `release` takes it apart.
pub struct Snapshot<D: Disk> {
    active: VecBuffer,
    frozen: Option<VecBuffer>,
    version: Version<D>,
    pending: List<Pending>,
    point: u64,
    pin: HeldPin,
}

impl<D: Disk> Snapshot<D> {
    /// These contents, which the pin keeps.
    pub fn of(contents: Contents<D>, pin: HeldPin) -> Snapshot<D>
        ensures { result ≡ snapshot_of contents pin }
    {
        let Contents {
            active,
            frozen,
            version,
            pending,
            point,
        } = contents;
        Snapshot {
            active,
            frozen,
            version,
            pending,
            point,
            pin,
        }
    }

    /// What the key had at the point, whatever was called since.
    ///
    /// # Errors
    ///
    /// As for a get of the store.
    pub fn get(
        &self,
        alloc: Global,
        port: &mut D::Port,
        key: &Key,
    ) -> Result<Option<(u64, Value)>, Refused>
        ensures answer { D.tells → (h : History) → IsOf h self.now → IfOk result (λ held. answer (after h) (Get key.now) ≡ Found held) }

        // Where a page is told as damaged, a fetch was made in this call, since the key may be there, and it is another page.
        ensures damaged { (name : Name) → IsErrOf result (Damaged name) → IsDamagedOf key.now self.now.version name × (D.fetches port.old < D.fetches port.new) }

        // On any disk. Where a buffer had an entry of the key, it is answered from that one, under the erases that were pending.
        ensures buffered { IfOk result (λ held. IfSome (buffered_entry key.now self.now.active.entries (frozen_entries (λ buffer. buffer.entries) self.now.frozen))
            (λ entry. held ≡ answer_under self.now.pending entry)) }
        ensures backed { IfOk result (λ held. IfSome held (IsBacked key.now self.now.active.entries (frozen_entries (λ buffer. buffer.entries) self.now.frozen) (IsVouchedBy self.now.version))) }
        ensures undamaged { D.tells → (h : History) → IsOf h self.now → (name : Name) → IsErrOf result (Damaged name) → ⊥ }
        ensures why { IfErr result IsReadRefusal }
        ensures fault { (before after : ℕ) → IsErrOf result (ReadFault before after) → (before ≡ D.port_faults port.old) × (after ≡ D.port_faults port.new) × Rose before after }
        ensures can_fail { (before after : ℕ) → IsErrOf result (ReadFault before after) → D.ports_fail }
        ensures faults { D.port_faults port.old ≤ D.port_faults port.new }

        // Nothing is fetched where a buffer has the key.
        ensures fetches { D.fetches port.new ≤ D.fetches port.old
            + (if is_buffered key.now self.now.active.entries (frozen_entries (λ buffer. buffer.entries) self.now.frozen) then 0 else sum_by (λ file. bound key.now file.header) (files_of self.now.version)) }
        ensures later { D.fetches port.old ≤ D.fetches port.new }
    {
        let erases = self.pending.items();
        match get(
            alloc,
            &self.active,
            self.frozen.as_ref(),
            &self.version,
            erases,
            port,
            key,
        ) {
            Ok(held) => Ok(held),
            Err(why) => Err(told_as(why)),
        }
    }

    /// The pairs that the keys from `lo` up to `hi` excluded had at the point, ascending.
    ///
    /// # Errors
    ///
    /// As for `get`.
    pub fn scan(
        &self,
        alloc: Global,
        port: &mut D::Port,
        lo: &Key,
        hi: &Key,
    ) -> Result<Vec<(Key, u64, Value)>, Refused>
        ensures answer { D.tells → (h : History) → IsOf h self.now → IfOk result (λ pairs. answer (after h) (Scan lo.now hi.now) ≡ Listed (by_keys pairs.items)) }
        ensures undamaged { D.tells → (h : History) → IsOf h self.now → (name : Name) → IsErrOf result (Damaged name) → ⊥ }
        ensures why { IfErr result IsReadRefusal }
        ensures fault { (before after : ℕ) → IsErrOf result (ReadFault before after) → (before ≡ D.port_faults port.old) × (after ≡ D.port_faults port.new) × Rose before after }
        ensures can_fail { (before after : ℕ) → IsErrOf result (ReadFault before after) → D.ports_fail }
        ensures faults { D.port_faults port.old ≤ D.port_faults port.new }

        // On any disk each pair stands in an entry of its key that a buffer had, or for which a line of one of the files vouches by its digest.
        ensures between { IfOk result (λ pairs. AreListedBetween lo.now hi.now pairs.items) }
        ensures backed { IfOk result (λ pairs. (pair : Bytes × ℕ × Bytes) → Contains pairs.items pair
            → IsBacked pair.0 self.now.active.entries (frozen_entries (λ buffer. buffer.entries) self.now.frozen) (IsVouchedBy self.now.version) (pair.1, pair.2)) }

        // Each page of a tile that meets the range is fetched once, and no other page; nothing is fetched where `lo` isn't below `hi`.
        ensures fetches { is_lt (key_cmp lo.now hi.now) ≡ true → OnOk result (D.fetches port.new ≡ D.fetches port.old + pages_between lo.now hi.now self.now.version) }
        ensures at_most { is_lt (key_cmp lo.now hi.now) ≡ true → D.fetches port.new ≤ D.fetches port.old + pages_between lo.now hi.now self.now.version }
        ensures unasked { is_lt (key_cmp lo.now hi.now) ≡ false → D.fetches port.new ≡ D.fetches port.old }

        // Where a page is told as damaged, a fetch was made in this call, and it is another page.
        ensures damaged { (name : Name) → IsErrOf result (Damaged name) → IsDamagedInAny self.now.version name × (D.fetches port.old < D.fetches port.new) }
        ensures later { D.fetches port.old ≤ D.fetches port.new }
    {
        let frozen = self.frozen.as_ref();
        match scan(
            alloc,
            &self.active,
            frozen,
            &self.version,
            self.pending.items(),
            port,
            lo,
            hi,
        ) {
            Ok(pairs) => Ok(pairs),
            Err(why) => Err(told_as(why)),
        }
    }

    /// How many changes the store had had.
    pub fn point(&self) -> u64
        ensures { result ≡ self.now.point }
    {
        self.point
    }

    /// The number of its pin, counted from 1.
    pub fn number(&self) -> u64
        ensures { result ≡ self.now.pin.number }
    {
        self.pin.number()
    }

    /// The time from which on a tick is refused while it is held.
    pub fn limit(&self) -> u64
        ensures { result ≡ self.now.pin.limit }
    {
        self.pin.limit()
    }

    /// Lets go of the copies and of its share of the files. Its pin is given back: it is still to be let go.
    pub fn release(self) -> HeldPin
        ensures { result ≡ self.pin }
    {
        let Snapshot {
            active: _,
            frozen: _,
            version: _,
            pending: _,
            point: _,
            pin,
        } = self;
        pin
    }
}
