//! What a store tells of what it remembers.
ghost use Rattle.std.specs.Prelude.{◌≡◌};
ghost use Rattle.std.specs.Option.{option_copied};

use crate::State;
use lethe_base::Pending;
use lethe_manifest::Manifest;
use lethe_mem::VecBuffer;

impl State {
    /// The manifest that counts.
    pub fn manifest(&self) -> &Manifest
        ensures { result.now ≡ self.now.manifest }
    {
        &self.manifest
    }

    /// The first number that hasn't been drawn.
    pub fn next(&self) -> u64
        ensures { result ≡ self.now.next }
    {
        self.next
    }

    /// How many changes there were.
    pub fn count(&self) -> u64
        ensures { result ≡ self.now.count }
    {
        self.count
    }

    /// The pending erases, by their places: the manifest's and those that the segments record. Some may be done.
    pub fn pending(&self) -> &[Pending]
        ensures { result.now ≡ self.now.pending }
    {
        self.pending.items()
    }

    /// The newest entry of each key that the active segment has.
    pub fn active(&self) -> &VecBuffer
        ensures { result.now ≡ self.now.active }
    {
        &self.active
    }

    /// How many records the active segment has.
    pub fn records(&self) -> u64
        ensures { result ≡ self.now.records }
    {
        self.records
    }

    /// The place of the closed gate byte that ends the active segment.
    pub fn end(&self) -> u64
        ensures { result ≡ self.now.end }
    {
        self.end
    }

    /// The least time of all records of the active segment, of replaced ones too, where one has a time.
    pub fn oldest(&self) -> Option<u64>
        ensures { result ≡ self.now.oldest }
    {
        self.oldest
    }

    /// The newest entry of each key of the frozen segment, where there is one.
    pub fn frozen(&self) -> Option<&VecBuffer>
        ensures { option_copied result ≡ self.now.frozen }
    {
        self.frozen.as_ref()
    }

    /// The least time of all records of the frozen segment.
    pub fn frozen_oldest(&self) -> Option<u64>
        ensures { result ≡ self.now.frozen_oldest }
    {
        self.frozen_oldest
    }

    /// The place of the change or the work in which the disk failed.
    pub fn stopped(&self) -> Option<u64>
        ensures { result ≡ self.now.stopped }
    {
        self.stopped
    }
}
