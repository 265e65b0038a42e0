//! A time at which nothing is due.
ghost use Rattle.std.specs.Prelude.{◌≡◌, ℕ, ◌+◌, length};
ghost use Rattle.lethe_base.specs.Causes.{IsOverdue};
ghost use Rattle.lethe_base.specs.Configuration.{IsConfig};
ghost use Rattle.lethe_base.specs.Fresh.{AreFresh};
ghost use Rattle.lethe_base.specs.Held.{Holds, Tells};
ghost use Rattle.lethe_base.specs.History.{History};
ghost use Rattle.lethe_base.specs.Layout.{Layout};
ghost use Rattle.lethe_base.specs.Matching.{IsPut};
ghost use Rattle.lethe_base.specs.declared.config.Fields.{Fields};
ghost use Rattle.lethe_base.specs.declared.entry.Entry.{Entry};
ghost use Rattle.lethe_moves.specs.Due.{HasNothingDue};
ghost use Rattle.lethe_moves.specs.Reaches.{Follows};

/// Where nothing is due at a time, nothing that is remembered is a threshold old then.
pub fn nothing_due_is_fresh()
    ensures { (fields : Fields) → IsConfig fields → (h : History) (l : Layout) → Follows fields.threshold h l → length l.levels ≡ fields.levels + 1
        → (clock : ℕ) → HasNothingDue fields clock l → AreFresh fields.threshold h clock (Holds l) (Tells l) }
{}

/// Where nothing is due at a time, no put that is held is overdue then.
pub fn nothing_due_is_overdue()
    ensures { (fields : Fields) → IsConfig fields → (h : History) (l : Layout) → Follows fields.threshold h l → length l.levels ≡ fields.levels + 1
        → (clock : ℕ) → HasNothingDue fields clock l
        → (entry : Entry) (swept : ℕ) → Holds l entry swept → IsPut entry.body → IsOverdue fields.threshold h clock entry.seq → ⊥ }
{}
