//! What is stored stands for its history after a sweep, a sweep that was begun stays one, and its installation is a step.
ghost use Rattle.std.specs.Prelude.{◌≡◌, ◌<◌, ◌≤◌, ◌++◌, ◌∷◌, ℕ, Bool, List, [], None, All, AllPairs, Contains, option_to_list};
ghost use Rattle.std.specs.List.{cons_option};
ghost use Rattle.lethe_base.specs.History.{History};
ghost use Rattle.lethe_base.specs.Spent.{left_erases};
ghost use Rattle.lethe_base.specs.declared.name.Kind.TheVariants.{Page};
ghost use Rattle.lethe_base.specs.declared.name.Name.{Name};
ghost use Rattle.lethe_base.specs.declared.pending.Pending.{Pending};
ghost use Rattle.lethe_advance.specs.Settled.{AreUncited};
ghost use Rattle.lethe_advance.specs.Steps.{IsSettledBy, IsStep, WasThere};
ghost use Rattle.lethe_advance.specs.declared.new_header.NewHeader.{NewHeader};
ghost use Rattle.lethe_advance.specs.declared.step.Step.{Step};
ghost use Rattle.lethe_follows.specs.Filed.{flushed};
ghost use Rattle.lethe_follows.specs.Merged.{Company};
ghost use Rattle.lethe_manifest.specs.Manifests.{HasSpelling};
ghost use Rattle.lethe_segment.specs.declared.record.Record.{Record};
ghost use Rattle.lethe_stored.specs.Files.{StoredFile};
ghost use Rattle.lethe_stored.specs.Kept.{IsFor};
ghost use Rattle.lethe_stored.specs.Levels.{AreRising};
ghost use Rattle.lethe_stored.specs.Stored.{Stored, IsCoherent, appended, erase_of, froze, layout_of, pending_of};
ghost use Rattle.lethe_sweeps.specs.Swept.{IsSweepIn, IsSweptWith, StoredSweep, files_before, with_front};
ghost use Rattle.lethe_sweeps.specs.SweptSteps.{IsSweepStep};

/// With what an erase leaves of a file in the file's place, and without the erases that are done then where no other job is in flight, what is stored stands for the same
/// history: the pages that stay change their owner.
pub fn sweep_follows()
    ensures coherent { (company : Company) (s : Stored) → IsCoherent s → (w : StoredSweep) (erase : Pending) (alone : Bool) → IsSweepIn s w erase alone → (t : Stored)
        → IsSweptWith company s w erase alone t → HasSpelling t.manifest → IsCoherent t }
    ensures rising { (company : Company) (s : Stored) → IsCoherent s → AreRising s.files → (w : StoredSweep) (erase : Pending) (alone : Bool) → IsSweepIn s w erase alone → (t : Stored)
        → IsSweptWith company s w erase alone t → AreRising t.files }
    ensures stands { (company : Company) (h : History) (s : Stored) → IsCoherent s → IsFor h s → (w : StoredSweep) (erase : Pending) (alone : Bool) → IsSweepIn s w erase alone → (t : Stored)
        → IsSweptWith company s w erase alone t → IsFor h t }
{}

/// A sweep stays one while records come, a segment is frozen, and files of level 0 come by a flush.
pub fn sweep_stays()
    ensures appended { (s : Stored) (w : StoredSweep) (erase : Pending) (alone : Bool) → IsSweepIn s w erase alone → (next : Record)
        → AllPairs (λ a b. a.seq < b.seq) (pending_of s ++ option_to_list (erase_of next)) → IsSweepIn (appended s next) w erase alone }
    ensures frozen { (s : Stored) (w : StoredSweep) (erase : Pending) (alone : Bool) → IsSweepIn s w erase alone → (segment number : ℕ) → s.frozen ≡ None
        → IsSweepIn (froze s segment number) w erase alone }
    ensures flushed { (s : Stored) (w : StoredSweep) (erase : Pending) (alone : Bool) → IsSweepIn s w erase alone → (made : List StoredFile) (number : ℕ) → All (λ file. file.level ≡ 0) made
        → IsSweepIn (flushed s made number) (with_front made w) erase alone }
{}

/// The first of the erases that are still to be done is the oldest pending one that a file isn't swept of, whichever file that is.
pub fn first_left_is_swept()
    ensures { (s : Stored) → IsCoherent s → (w : StoredSweep) → s.files ≡ files_before w → (erase : Pending) (later : List Pending) → left_erases (layout_of s) ≡ erase ∷ later
        → Contains (pending_of s) erase
        × ((other : Pending) → Contains (pending_of s) other → w.file.swept < other.seq → erase.seq ≤ other.seq) }
{}

/// The step of a sweep is one that `advance` carries out: pages that stay are stored already, and are cited by another file then.
pub fn sweep_is_a_step()
    ensures { (company : Company) (s t : Stored) → IsCoherent s → IsCoherent t → (w : StoredSweep) (erase : Pending) (alone : Bool) → IsSweepIn s w erase alone → (is : IsSweptWith company s w erase alone t)
        → (loose left : List (Name × List ℕ)) → All (λ named. named.0.kind ≡ Page) loose → AreUncited s loose
        → (headers : List NewHeader) (step : Step) → IsSweepStep s t w.file (cons_option is.made []) loose left headers step
        → All (λ named. IsSettledBy step t left named.0) loose → All (WasThere s loose) left → All (λ named. Contains step.gone.items named.0 → ⊥) left → AreUncited t left
        → IsStep s loose t left headers step }
{}
