//! The erases that are still to be done, and those that a manifest keeps.
ghost use Rattle.std.specs.Prelude as prelude;
ghost use Rattle.std.specs.Prelude.{◌≡◌, IfOk, length, map};
ghost use Rattle.lethe_base.specs.Spent.{done_upto, is_above, least, left_erases};
ghost use Rattle.lethe_stored.specs.Files.{Parts};
ghost use Rattle.lethe_stored.specs.Stored.{Stored, layout_of};
ghost use Rattle.lethe_follows.specs.Leaving.{is_kept, kept_erases};
ghost use Rattle.lethe_state.specs.Left.{HasOtherFiles, done_with, first_recorded, kept_with, left_with, staying_with};
ghost use Rattle.lethe_state.specs.Remembered.{Remembers};
ghost use Rattle.lethe_state.specs.Writable.{IsWritable};

use crate::State;
use crate::firsts::earlier;
use lethe_base::{List, NoMemory, Pending, erases_above};
use lethe_flush::swept_upto;
use lethe_follows::Company;
use lethe_manifest::Cited;
use std::alloc::Global;

impl State {
    /// The place up to which all pending erases are done where a manifest cites these files: None where nothing bounds it, so that all are.
    pub fn done_upto(&self, files: &[Cited]) -> Option<u64>
        ensures is { result ≡ done_with self.now files.now }
        ensures done { (s t : Stored) (levels : prelude.List (prelude.List Parts)) → Remembers s self.now levels → HasOtherFiles s t → files.now ≡ t.manifest.files → result ≡ done_upto (layout_of t) }
    {
        earlier(
            swept_upto(files),
            earlier(self.firsts.put, self.frozen_firsts.put),
        )
    }

    /// The place of the first erase that a segment records.
    fn first_recorded(&self) -> Option<u64>
        ensures { result ≡ first_recorded self.now }
    {
        earlier(self.frozen_firsts.erase, self.firsts.erase)
    }

    /// The pending erases that are still to be done.
    pub fn left_erases(&self) -> &[Pending]
        requires { IsWritable self.now }
        ensures is { result.now ≡ left_with self.now }
        ensures left { (s : Stored) (levels : prelude.List (prelude.List Parts)) → Remembers s self.now levels → result.now ≡ left_erases (layout_of s) }
    {
        let done = self.done_upto(self.manifest.files.items());
        erases_above(self.pending.items(), done)
    }

    /// How many of the pending erases are still to be done.
    pub fn left_count(&self) -> u64
        ensures is { result ≡ length (left_with self.now) }
        ensures left { (s : Stored) (levels : prelude.List (prelude.List Parts)) → Remembers s self.now levels → result ≡ length (left_erases (layout_of s)) }
    {
        let done = self.done_upto(self.manifest.files.items());
        let left = self
            .pending
            .items()
            .iter()
            .filter(|erase| is_above(done, erase.seq));
        left.count() as u64
    }

    /// The pending erases that a manifest which cites these files keeps: those that are done leave it, up to the first that a segment records.
    pub fn kept_erases(&self, alloc: Global, files: &[Cited]) -> Result<List<Pending>, NoMemory>
        ensures is { IfOk result (λ kept. kept ≡ kept_with self.now files.now) }
        ensures kept { (s t : Stored) (levels : prelude.List (prelude.List Parts)) → Remembers s self.now levels → HasOtherFiles s t → files.now ≡ t.manifest.files → IfOk result (λ kept. kept ≡ kept_erases t) }
    {
        let done = self.done_upto(files);
        let first = self.first_recorded();
        let kept = self
            .pending
            .items()
            .iter()
            .copied()
            .filter(|erase| is_kept(done, first, erase.seq))
            .collect(alloc)?;
        Ok(List::of(kept))
    }

    /// The pending erases that the manifest of an install has, which cites these files: all of them beside another job.
    pub fn staying_erases(
        &self,
        alloc: Global,
        company: Company,
        files: &[Cited],
    ) -> Result<List<Pending>, NoMemory>
        ensures { IfOk result (λ staying. staying ≡ staying_with company self.now files.now) }
    {
        match company {
            Company::Last => self.kept_erases(alloc, files),
            Company::Beside => Ok(List::of(self.pending.items().to_vec(alloc)?)),
        }
    }

    /// Forgets the erases that the manifest doesn't keep. It takes no memory.
    pub(crate) fn let_go(&mut self, alloc: Global)
        ensures { self.new ≡ record self.old { pending = kept_with self.old self.old.manifest.files } }
    {
        let done = self.done_upto(self.manifest.files.items());
        let first = self.first_recorded();
        let mut pending = std::mem::replace(
            &mut self.pending,
            List::of(Vec::new(alloc)),
        ).into_vec();
        pending.retain(|erase| is_kept(done, first, erase.seq));
        self.pending = List::of(pending);
    }
}

/// Whether a place lies above the one up to which all is done.
fn is_above(done: Option<u64>, place: u64) -> bool
    ensures { result ≡ is_above done place }
{
    done.is_some_and(|done| done < place)
}

/// Whether a place lies above the one up to which all is done, or isn't in front of the first.
fn is_kept(done: Option<u64>, first: Option<u64>, place: u64) -> bool
    ensures { result ≡ is_kept done first place }
{
    is_above(done, place) || first.is_some_and(|first| first <= place)
}
