//! What a step writes and removes.
ghost use Rattle.std.specs.Prelude.{◌≡◌, ◌⊎◌, ◌↔◌, ◌<◌, ◌≤◌, ◌^◌, length, IfOk, IsErr};
ghost use Rattle.lethe_base.specs.Limits.{max_place};
ghost use Rattle.lethe_manifest.specs.Followers.{follower};

use lethe_base::{Name, NoMemory};
use lethe_commit::Object;
use lethe_manifest::{Change, Manifest};

/// What is written and removed on the way from what is stored to what is stored next.
#[derive(Debug, Drop)]
pub struct Step {
    /// Objects to be written, whose numbers have not been drawn.
    pub objects: Vec<Object>,
    /// The numbers of the files that go.
    pub merged: Vec<u64>,
    /// The number of the manifest that counts until then.
    pub older: u64,
    /// The manifest that will count.
    pub manifest: Manifest,
    /// The objects that aren't cited any more, apart from the older manifest and its gate.
    pub gone: Vec<Name>,
}

impl Step {
    /// The step from what a manifest cites to what the manifest cites that follows it by this change. It writes these objects, and these files and objects go.
    ///
    /// # Errors
    ///
    /// `NoMemory` where the manifest that follows would have 2^32 erases or files.
    pub fn to(
        older: &Manifest,
        change: Change,
        objects: Vec<Object>,
        merged: Vec<u64>,
        gone: Vec<Name>,
    ) -> Result<Step, NoMemory>
        requires { change.no < max_place }
        ensures objects { IfOk result (λ step. step.objects ≡ objects) }
        ensures merged { IfOk result (λ step. step.merged ≡ merged) }
        ensures older { IfOk result (λ step. step.older ≡ older.now.no) }
        ensures manifest { IfOk result (λ step. step.manifest ≡ follower older.now change) }
        ensures gone { IfOk result (λ step. step.gone ≡ gone) }
        ensures few_erases { IfOk result (λ step. length step.manifest.erases < 2 ^ 32) }
        ensures few_files { IfOk result (λ step. length step.manifest.files < 2 ^ 32) }
        ensures no_memory { IsErr result ↔ ((2 ^ 32 ≤ length change.erases) ⊎ (2 ^ 32 ≤ length change.files)) }
    {
        Ok(Step {
            objects,
            merged,
            older: older.no,
            manifest: older.followed_by(change)?,
            gone,
        })
    }
}
