//! The loop over the jobs that are due.
ghost use Rattle.std.specs.Prelude.{◌≡◌, ◌<◌, ◌-◌, ◌^◌, None, OnOk, IfErr};
ghost use Rattle.lethe_settle.specs.Runs.{IsRefused, IsSettled};

use crate::Tree;
use lethe_base::Refused;

/// Runs the jobs that are due at a time, one after another, until none is.
///
/// # Errors
///
/// What the last run was refused for. The jobs before it are done.
pub fn settle<T: Tree>(tree: &mut T, to: u64) -> Result<(), Refused>
    requires sound { T.sound tree.old }
    requires few { T.told → T.steps_in tree.old < 2 ^ 64 - 1 }
    ensures sound { OnOk result (T.sound tree.new) }
    ensures settled { T.told → OnOk result (T.due_in tree.new to ≡ None) }

    // No job was run but those that were due, each in its turn. Where it isn't known what the tree's files hold, one may still be due
    // behind 2^64 - 1 others.
    ensures ran { OnOk result (IsSettled T.due_in T.ran to tree.old tree.new) }
    ensures refused { IfErr result (λ why. IsRefused T.due_in T.ran to tree.old why tree.new) }
    ensures beside { T.beside tree.old tree.new }
{
    // Where each job leaves less to do, none is due before these rounds are over. Elsewhere they end the loop.
    for _ in 0..u64::MAX {
        match tree.due(to) {
            Some(plan) => tree.run(plan)?,
            None => return Ok(()),
        }
    }
    Ok(())
}
