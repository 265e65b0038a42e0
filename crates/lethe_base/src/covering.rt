//! Laws of what a store's layout stands for. The functions do nothing: their contracts are the laws.
ghost use Rattle.std.specs.Prelude.{◌≡◌, ◌↔◌, ℕ, List, [], Contains, Some};
ghost use Rattle.lethe_base.specs.declared.entry.Entry.{Entry};
ghost use Rattle.lethe_base.specs.declared.pending.Pending.{Pending};
ghost use Rattle.lethe_base.specs.History.{History, after};
ghost use Rattle.lethe_base.specs.Causes.{IsCause, IsOverdue, cause_of};
ghost use Rattle.lethe_base.specs.Matching.{IsPut};
ghost use Rattle.lethe_base.specs.Layout.{Layout, new_layout};
ghost use Rattle.lethe_base.specs.Held.{Holds};
ghost use Rattle.lethe_base.specs.Spent.{IsShorter, IsSpent, left_erases};
ghost use Rattle.lethe_base.specs.Shapes.{IsValidShape, shape_of};
ghost use Rattle.lethe_base.specs.Covers.{Covers};
ghost use Rattle.lethe_base.specs.Examples.{put_alone, with_put};
ghost use Rattle.lethe_base.specs.Keys.{Bytes};

/// The cause of an erasure is the first change behind the put that erases it, so there is at most one.
pub fn cause_is_first()
    ensures { (h : History) (place cause : ℕ) → (cause_of h place ≡ Some cause) ↔ IsCause h place cause }
{}

/// A new store stands for the history without any change.
pub fn new_layout_covers()
    ensures { (threshold levels : ℕ) → Covers threshold [] (new_layout levels) }
{}

/// With the record of a put, a new store stands for the history of that put.
pub fn first_put_covers()
    ensures { (threshold levels caller : ℕ) (key : Bytes) (dkey : ℕ) (value : Bytes)
        → Covers threshold (put_alone caller key dkey value) (with_put levels key dkey value) }
{}

/// A new store's shape is one that a store may have.
pub fn new_shape_is_valid()
    ensures { (levels : ℕ) → IsValidShape (shape_of (new_layout levels)) }
{}

/// Of what a layout holds, nothing is overdue at its clock.
pub fn none_is_overdue()
    ensures { (threshold : ℕ) (h : History) (l : Layout) → Covers threshold h l
        → (entry : Entry) (swept : ℕ) → Holds l entry swept → IsPut entry.body
        → IsOverdue threshold h l.clock entry.seq → ⊥ }
{}

/// The histories that a layout stands for leave one map.
pub fn layout_has_one_map()
    ensures { (threshold : ℕ) (h g : History) (l : Layout) → Covers threshold h l → Covers threshold g l
        → (after h).map ≡ (after g).map }
{}

/// Without erases that are spent a layout stands for the same history.
pub fn spent_erases_may_go()
    ensures { (threshold : ℕ) (h : History) (l : Layout) → Covers threshold h l
        → (pending : List Pending) → IsShorter l pending
        → Covers threshold h (record l { pending = pending }) }
{}

/// The erases that are left are those that aren't spent.
pub fn left_erases_are_unspent()
    ensures { (l : Layout) (erase : Pending) → Contains (left_erases l) erase ↔ (Contains l.pending erase × (IsSpent l erase → ⊥)) }
{}
