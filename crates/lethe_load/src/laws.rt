//! A law of what is read of a disk. The function does nothing: its contract is the law.
ghost use Rattle.lethe_base.specs.History.{History};
ghost use Rattle.lethe_base.specs.declared.config.Fields.{Fields};
ghost use Rattle.lethe_base.specs.declared.name.Name.{Name};
ghost use Rattle.lethe_disk.specs.Directory.{Directory};
ghost use Rattle.lethe_stored.specs.Kept.{IsKept};
ghost use Rattle.lethe_load.specs.Damaged.{IsDamaged};

/// Of a directory that is kept for a history, nothing is damaged.
pub fn kept_has_no_damage()
    ensures { (kept : Fields) (h : History) (d : Directory) → IsKept kept d h → (config : Fields) (name : Name) → IsDamaged config d name → ⊥ }
{}
