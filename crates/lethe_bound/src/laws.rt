//! Laws of the limit of a pin.
ghost use Rattle.std.specs.Prelude.{◌≡◌, ℕ, ◌+◌, ◌<◌, ◌≤◌, List, ◌++◌, ◌∷◌, [], All, Contains};
ghost use Rattle.lethe_base.specs.Causes.{IsOverdue};
ghost use Rattle.lethe_base.specs.Covers.{Covers};
ghost use Rattle.lethe_base.specs.History.{Change, History, after};
ghost use Rattle.lethe_base.specs.Layout.{Layout};
ghost use Rattle.lethe_bound.specs.Limits.{HoldsPut, IsBounded, IsLimit};

/// Of what a layout holds when a pin is made, nothing was erased more than a threshold before the pin's limit.
pub fn pin_is_bounded()
    ensures { (threshold limit : ℕ) (h : History) (l : Layout) → Covers threshold h l → l.clock ≡ (after h).clock → IsLimit threshold l limit
        → (places : List ℕ) → All (HoldsPut l) places → IsBounded threshold limit h places }
{}

/// That stays so with each change that doesn't set the clock back.
pub fn bound_goes_on()
    ensures { (threshold limit : ℕ) (h : History) (change : Change) (places : List ℕ) → IsBounded threshold limit h places
        → (after h).clock ≤ (after (h ++ change ∷ [])).clock → IsBounded threshold limit (h ++ change ∷ []) places }
{}

/// So at a time before the limit none of it is overdue.
pub fn bound_is_timely()
    ensures { (threshold limit time : ℕ) (h : History) (places : List ℕ) → IsBounded threshold limit h places → time < limit
        → (place : ℕ) → Contains places place → IsOverdue threshold h time place → ⊥ }
{}

/// A limit is above the clock, and at most a threshold above it.
pub fn limit_is_near()
    ensures above { (threshold limit : ℕ) (h : History) (l : Layout) → Covers threshold h l → 0 < threshold → IsLimit threshold l limit → l.clock < limit }
    ensures near { (threshold limit : ℕ) (l : Layout) → IsLimit threshold l limit → limit ≤ threshold + l.clock }
{}
