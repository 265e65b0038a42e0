//! A tree of two numbers that it borrows: what is left to be counted, and how often a job was run.
ghost use Rattle.std.specs.Prelude.{◌≡◌, ◌<◌, ◌+◌, ◌^◌, Some, None, OnOk, IfErr, if◌then◌else◌, nat_lt, min, refl};
ghost use Rattle.std.proofs.Common.{◌∙◌};
ghost use Rattle.lethe_base.specs.declared.refused.Refused.TheVariants.{Exhausted};

use lethe_base::Refused;
use lethe_fade::Plan;
use lethe_settle::{Tree, settle};

/// Each job takes one off. The job that finds a certain number is refused.
#[derive(Drop)]
struct Countdown<'a> {
    left: &'a mut u64,
    runs: &'a mut u64,
    refused_at: Option<u64>,
}

impl<'a> Tree for Countdown<'a> {
    ghost told = { Unit {0} };

    ghost sound = { λ s. s.left.now + s.runs.now < 2 ^ 63 };

    ghost due_in = { λ s to. if nat_lt to s.left.now then Some (record { file = s.left.now; erase = None }) else None };

    ghost steps_in = { λ s. s.left.now };

    ghost ran = { λ old plan result new. (new.runs.now ≡ old.runs.now + 1)
        × OnOk result (new.left.now + 1 ≡ old.left.now)
        × IfErr result (λ why. (why ≡ Exhausted new.left.now) × (new.refused_at ≡ Some new.left.now) × (new.left.now ≡ old.left.now)) };

    ghost beside = { λ old new. (new.left.ghost_name ≡ old.left.ghost_name) × (new.runs.ghost_name ≡ old.runs.ghost_name) × (new.refused_at ≡ old.refused_at) };

    fn due(&self, to: u64) -> Option<Plan> {
        if *self.left > to {
            Some(Plan {
                file: *self.left,
                erase: None,
            })
        } else {
            None
        }
    }

    fn run(&mut self, plan: Plan) -> Result<(), Refused> {
        *self.runs += 1;
        if self.refused_at == Some(plan.file) {
            return Err(Refused::Exhausted { last: plan.file });
        }
        *self.left -= 1;
        Ok(())
    }

    ghost beside_itself = { λ x. (refl, refl, refl) };

    ghost beside_then = { λ x y z first second. (second.0 ∙ first.0, second.1 ∙ first.1, second.2 ∙ first.2) };
}

/// Counts down to a number, one job at a time, and adds to `runs` how many were run.
pub fn count_down(
    left: &mut u64,
    runs: &mut u64,
    refused_at: Option<u64>,
    to: u64,
) -> Result<(), Refused>
    requires { left.old + runs.old < 2 ^ 63 }
    ensures settled { OnOk result (left.new ≡ min left.old to) }
    ensures counted { OnOk result (left.new + runs.new ≡ left.old + runs.old) }
    ensures refused { IfErr result (λ why. (why ≡ Exhausted left.new) × (refused_at ≡ Some left.new) × (to < left.new) × (left.new + runs.new ≡ left.old + runs.old + 1)) }
{
    let mut tree = Countdown {
        left,
        runs,
        refused_at,
    };
    settle(&mut tree, to)
}
