//! What holds of every run of a store.
ghost use Rattle.std.specs.Prelude.{◌≡◌, ℕ, ◌+◌, length};
ghost use Rattle.lethe_base.specs.Configuration.{IsConfig};
ghost use Rattle.lethe_base.specs.History.{History};
ghost use Rattle.lethe_base.specs.Layout.{Layout};
ghost use Rattle.lethe_base.specs.declared.config.Fields.{Fields};
ghost use Rattle.lethe_moves.specs.Reaches.{Follows, Reaches};

/// Whatever was done to a new store, its layout stands for its history, and its files keep their order.
pub fn each_run_follows()
    ensures { (fields : Fields) → IsConfig fields → (h : History) (l : Layout) → Reaches fields h l
        → Follows fields.threshold h l × (length l.levels ≡ fields.levels + 1) }
{}
