//! Reads of a store.
ghost use Rattle.std.specs.Prelude.{Contains, ◌≡◌, ◌<◌, ◌≤◌, ◌+◌, ℕ, true, false, IfOk, IfErr, IfSome, IsErrOf, OnOk, sum_by, if◌then◌else◌};
ghost use Rattle.std.specs.Ordering.{is_lt};
ghost use Rattle.std.specs.Result.{result_err};
ghost use Rattle.lethe_base.specs.Counts.{Rose};
ghost use Rattle.lethe_base.specs.History.{History, after};
ghost use Rattle.lethe_base.specs.Keys.{Bytes, key_cmp};
ghost use Rattle.lethe_base.specs.Matching.{answer_under};
ghost use Rattle.lethe_base.specs.Read.{Get, Scan, Found, answer};
ghost use Rattle.lethe_base.specs.declared.call.Call.TheVariants.{Work};
ghost use Rattle.lethe_base.specs.declared.config.Fields.{Fields};
ghost use Rattle.lethe_base.specs.declared.name.Name.{Name};
ghost use Rattle.lethe_base.specs.declared.refused.Refused.TheVariants.{ReadFault, Damaged};
ghost use Rattle.lethe_version.specs.Probing.{bound};
ghost use Rattle.lethe_read.specs.Between.{AreListedBetween};
ghost use Rattle.lethe_read.specs.Found.{IsBacked, buffered_entry, frozen_entries};
ghost use Rattle.lethe_read.specs.Refusals.{IsReadRefusal};
ghost use Rattle.lethe_version.specs.Versions.{IsDamagedOf, IsVouchedBy, files_of, pages_between};
ghost use Rattle.lethe_engine.specs.Reads.{is_in_memory, listed};
ghost use Rattle.lethe_core.specs.Reasons.{HasDamagedPage};
ghost use Rattle.lethe_core.specs.Running.{IsSound};
ghost use Rattle.lethe_core.specs.StandsNow.{StandsNow};
ghost use Rattle.lethe_core.specs.View.{face_of, view_of};
ghost use Rattle.lethe_core.specs.Asked.{Serves};
ghost use Rattle.lethe_engine.specs.Answers.{Answers};

use crate::Engine;
use lethe_base::{Key, Refused, Value};
use lethe_disk::Disk;
use lethe_read::{get, scan, told_as};
use std::alloc::Global;

impl<D: Disk> Engine<D> {
    /// What a key has: its delete key and value. Files are asked, through the port, only where no buffer has an entry of the key. It answers on a
    /// stopped store too.
    ///
    /// # Errors
    ///
    /// `ReadFault`, `NoMemory`, and on a disk that tells nothing `Damaged`.
    pub fn get(
        &self,
        alloc: Global,
        port: &mut D::Port,
        key: &Key,
    ) -> Result<Option<(u64, Value)>, Refused>
        // The store stays as it is, whatever is answered.
        ensures answers { IsSound D.tells (view_of self.now.core)
            → Answers D.tells (Serves Work) (result_err result) (face_of (view_of self.now.core)) (view_of self.now.core) (view_of self.now.core) }
        ensures answer { D.tells → (config : Fields) (h : History) → StandsNow config h (view_of self.now.core)
            → IfOk result (λ held. answer (after h) (Get key.now) ≡ Found held) }

        // Nothing is fetched where a buffer has the key.
        ensures fetches { D.fetches port.new ≤ D.fetches port.old
            + (if is_in_memory key.now self.now.core.state then 0 else sum_by (λ file. bound key.now file.header) (files_of self.now.core.version)) }
        ensures later { D.fetches port.old ≤ D.fetches port.new }
        ensures why { IfErr result IsReadRefusal }

        // On any disk, where a buffer has an entry of the key, it is answered from that one, under the pending erases.
        ensures buffered { IfOk result (λ held. IfSome (buffered_entry key.now self.now.core.state.active.entries (frozen_entries (λ buffer. buffer.entries) self.now.core.state.frozen))
            (λ entry. held ≡ answer_under self.now.core.state.pending entry)) }

        // On any disk what the key has stands in an entry of the key that a buffer has, or for which a line of one of the files vouches by its digest.
        ensures backed { IfOk result (λ held. IfSome held (IsBacked key.now self.now.core.state.active.entries (frozen_entries (λ buffer. buffer.entries) self.now.core.state.frozen)
            (IsVouchedBy self.now.core.version))) }

        // Where a page is told as damaged, a fetch was made in this call, since the key may be there, and it is another page.
        ensures damaged { (name : Name) → IsErrOf result (Damaged name) → IsDamagedOf key.now self.now.core.version name × (D.fetches port.old < D.fetches port.new) }
        ensures undamaged { D.tells → IsSound D.tells (view_of self.now.core)
            → (name : Name) → IsErrOf result (Damaged name) → ⊥ }
        ensures fault { (before after : ℕ) → IsErrOf result (ReadFault before after)
            → (before ≡ D.port_faults port.old) × (after ≡ D.port_faults port.new) × Rose before after }
        ensures can_fail { (before after : ℕ) → IsErrOf result (ReadFault before after) → D.ports_fail }
        ensures faults { D.port_faults port.old ≤ D.port_faults port.new }
    {
        match get(
            alloc,
            self.core.state.active(),
            self.core.state.frozen(),
            &self.core.version,
            self.core.state.pending(),
            port,
            key,
        ) {
            Ok(held) => Ok(held),
            Err(why) => Err(told_as(why)),
        }
    }

    /// The keys from `lo` up to `hi` excluded, ascending, with their delete keys and values. Where `lo` isn't below `hi` there is none. It
    /// answers on a stopped store too.
    ///
    /// # Errors
    ///
    /// As for `get`.
    pub fn scan(
        &self,
        alloc: Global,
        port: &mut D::Port,
        lo: &Key,
        hi: &Key,
    ) -> Result<Vec<(Key, u64, Value)>, Refused>
        // The store stays as it is, whatever is answered.
        ensures answers { IsSound D.tells (view_of self.now.core)
            → Answers D.tells (Serves Work) (result_err result) (face_of (view_of self.now.core)) (view_of self.now.core) (view_of self.now.core) }
        ensures answer { D.tells → (config : Fields) (h : History) → StandsNow config h (view_of self.now.core)
            → IfOk result (λ pairs. answer (after h) (Scan lo.now hi.now) ≡ listed pairs.items) }

        // On any disk each pair stands in an entry of its key that a buffer has, or for which a line of one of the files vouches by its digest.
        ensures between { IfOk result (λ pairs. AreListedBetween lo.now hi.now pairs.items) }
        ensures backed { IfOk result (λ pairs. (pair : Bytes × ℕ × Bytes) → Contains pairs.items pair
            → IsBacked pair.0 self.now.core.state.active.entries (frozen_entries (λ buffer. buffer.entries) self.now.core.state.frozen)
            (IsVouchedBy self.now.core.version) (pair.1, pair.2)) }

        // Each page of a tile that meets the range is fetched once, and no other page; nothing is fetched where `lo` isn't below `hi`.
        ensures fetches { is_lt (key_cmp lo.now hi.now) ≡ true → OnOk result (D.fetches port.new ≡ D.fetches port.old + pages_between lo.now hi.now self.now.core.version) }
        ensures at_most { is_lt (key_cmp lo.now hi.now) ≡ true → D.fetches port.new ≤ D.fetches port.old + pages_between lo.now hi.now self.now.core.version }
        ensures unasked { is_lt (key_cmp lo.now hi.now) ≡ false → D.fetches port.new ≡ D.fetches port.old }

        // Where a page is told as damaged, a fetch was made in this call, and it is another page.
        ensures damaged { (name : Name) → IsErrOf result (Damaged name) → HasDamagedPage self.now.core name × (D.fetches port.old < D.fetches port.new) }
        ensures later { D.fetches port.old ≤ D.fetches port.new }
        ensures why { IfErr result IsReadRefusal }
        ensures undamaged { D.tells → IsSound D.tells (view_of self.now.core)
            → (name : Name) → IsErrOf result (Damaged name) → ⊥ }
        ensures fault { (before after : ℕ) → IsErrOf result (ReadFault before after)
            → (before ≡ D.port_faults port.old) × (after ≡ D.port_faults port.new) × Rose before after }
        ensures can_fail { (before after : ℕ) → IsErrOf result (ReadFault before after) → D.ports_fail }
        ensures faults { D.port_faults port.old ≤ D.port_faults port.new }
    {
        match scan(
            alloc,
            self.core.state.active(),
            self.core.state.frozen(),
            &self.core.version,
            self.core.state.pending(),
            port,
            lo,
            hi,
        ) {
            Ok(pairs) => Ok(pairs),
            Err(why) => Err(told_as(why)),
        }
    }
}
