//! Numbers that are drawn, and the manifest of a merge.
ghost use Rattle.std.specs.Prelude.{◌≡◌, ◌+◌, ◌≤◌, ◌<◌, ◌↔◌, IfSome, IsNone, length};
ghost use Rattle.lethe_base.specs.Limits.{max_place};
ghost use Rattle.lethe_manifest.specs.Manifests.{HasSpelling};
ghost use Rattle.lethe_state.specs.Left.{installed};
ghost use Rattle.lethe_state.specs.Writable.{IsWritable, segments_for};

use crate::State;
use lethe_advance::{Step, number_behind};
use lethe_follows::Company;
use std::alloc::Global;

impl State {
    /// The next number, for a page that a job writes. None where it has run out.
    pub fn free_number(&self) -> Option<u64>
        ensures none { IsNone result ↔ (max_place ≤ self.now.next) }
        ensures some { IfSome result (λ number. number ≡ self.now.next) }
    {
        number_behind(self.next, 0)
    }

    /// Draws the next number.
    pub fn draw(&mut self)
        requires free { self.old.next < max_place }
        ensures is { self.new ≡ record self.old { next = self.old.next + 1 } }
        ensures writable { IsWritable self.old → IsWritable self.new }
    {
        self.next += 1;
    }

    /// Takes the manifest of a merge's or a sweep's step, and forgets the erases that it doesn't keep: none beside another job. The buffers stay. It takes no memory.
    pub fn install(&mut self, alloc: Global, company: Company, step: Step)
        requires writable { IsWritable self.old }
        requires spelled { HasSpelling step.manifest }
        requires segments { length step.manifest.segments ≡ segments_for self.old.frozen }
        ensures is { self.new ≡ installed company step.manifest self.old }
        ensures writable { IsWritable self.new }
    {
        self.next = step.manifest.next;
        self.manifest = step.manifest;
        match company {
            Company::Last => self.let_go(alloc),
            Company::Beside => {}
        }
    }
}
