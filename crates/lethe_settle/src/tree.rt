//! What settling asks of that which has jobs to do.
ghost use Rattle.std.specs.Prelude.{◌≡◌, ◌<◌, ℕ, Option, Some, Result, OnOk};
ghost use Rattle.lethe_base.specs.declared.refused.Refused as refused;
ghost use Rattle.lethe_fade.specs.declared.plan.Plan as plan;

use lethe_base::Refused;
use lethe_fade::Plan;

/// Something that has jobs to do, of which one may be due at a time. It may borrow the store that its jobs work on.
pub trait Tree {
    /// This kind of tree tells what its files hold, so that a job leaves less to do.
    ghost told: { Type 0 };

    /// What a job needs of the tree, and leaves so.
    ghost sound: { Self → Type 0 };

    /// The job that is due at a time, if one is.
    ghost due_in: { Self → ℕ → Option plan.Plan };

    /// How much there is to do.
    ghost steps_in: { Self → ℕ };

    /// What a run comes to: of the tree before it, the job, what is answered, and the tree behind it.
    ghost ran: { Self → plan.Plan → Result (Unit {0}) refused.Refused → Self → Type 0 };

    /// What a run leaves as it is, whatever is answered: that what the tree borrows is the same.
    ghost beside: { Self → Self → Type 0 };

    /// The job that is due at a time. None where none is.
    fn due(&self, to: u64) -> Option<Plan>
        requires { sound self.now }
        ensures { result ≡ due_in self.now to };

    /// Runs a job that is due at some time.
    fn run(&mut self, plan: Plan) -> Result<(), Refused>
        requires sound { sound self.old }
        requires due { (to : ℕ) × (due_in self.old to ≡ Some plan) }
        ensures sound { OnOk result (sound self.new) }
        ensures ran { ran self.old plan result self.new }
        ensures lowers { told → OnOk result (steps_in self.new < steps_in self.old) }
        ensures beside { beside self.old self.new };

    ghost beside_itself: { (x : Self) → beside x x };

    ghost beside_then: { (x y z : Self) → beside x y → beside y z → beside x z };
}
