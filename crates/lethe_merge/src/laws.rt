//! A law of merged lists. The function does nothing: its contract is the law.
ghost use Rattle.std.specs.Prelude.{◌≡◌, ◌↔◌, Bool, List};
ghost use Rattle.lethe_base.specs.declared.entry.Entry.{Entry};
ghost use Rattle.lethe_base.specs.declared.pending.Pending.{Pending};
ghost use Rattle.lethe_cover.specs.Merged.{IsMerged};
ghost use Rattle.lethe_merge.specs.Merge.{merged};

/// There is one merged list of some inputs: a list is merged exactly where it is this one.
pub fn one_merged()
    ensures { (inputs : List Entry) (erases : List Pending) (alone : Bool) (list : List Entry)
        → IsMerged inputs erases alone list ↔ (list ≡ merged inputs erases alone) }
{}
