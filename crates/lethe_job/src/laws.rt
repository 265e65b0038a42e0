//! What is true of what is chosen and due, and of a task while the store goes on. The functions do nothing: their contracts are the laws.
ghost use Rattle.std.specs.Prelude.{◌≡◌, ◌<◌, ◌≤◌, ◌++◌, [], ℕ, List, None, Some, All, AllPairs, false, option_to_list};
ghost use Rattle.std.specs.List.{list_any};
ghost use Rattle.lethe_base.specs.Shapes as shapes;
ghost use Rattle.lethe_base.specs.Shapes.{IsValidShape};
ghost use Rattle.lethe_base.specs.declared.config.Fields.{Fields};
ghost use Rattle.lethe_base.specs.declared.pending.Pending.{Pending};
ghost use Rattle.lethe_fade.specs.Choice.{choice};
ghost use Rattle.lethe_fade.specs.Due.{due};
ghost use Rattle.lethe_fade.specs.Claimed.{claim_of};
ghost use Rattle.lethe_fade.specs.Claims.{IsProper, meets};
ghost use Rattle.lethe_fade.specs.declared.claim.Claim.{Claim};
ghost use Rattle.lethe_fade.specs.declared.plan.Plan.{Plan};
ghost use Rattle.lethe_segment.specs.Records.{record_seq};
ghost use Rattle.lethe_segment.specs.declared.record.Record.{Record};
ghost use Rattle.lethe_stored.specs.Files.{StoredFile};
ghost use Rattle.lethe_stored.specs.Stored.{Stored, IsCoherent, appended, count_of, erase_of, froze, layout_of, pending_of};
ghost use Rattle.lethe_follows.specs.Filed.{flushed};
ghost use Rattle.lethe_job.specs.Claims.{IsOfItsKind, claim_of_task};
ghost use Rattle.lethe_job.specs.Shapes.{due_shape, shape_of};
ghost use Rattle.lethe_job.specs.Works.{IsNamedBy, IsPlanIn, IsPlanned, IsTaskFor, PlainTask, plan_of};

/// The shape of the stored files, by their headers, is that of the layout.
pub fn shape_is_of_the_layout()
    ensures { (s : Stored) → IsCoherent s → shape_of s.manifest.config.levels s.files (pending_of s) ≡ shapes.shape_of (layout_of s) }
{}

/// The plan that is chosen, or due at a time, names one of the files, for a merge above the last level, and for a sweep one of the erases.
pub fn plan_is_named()
    ensures chosen { (config : Fields) → 0 < config.levels → (files : List StoredFile) → All (λ file. file.level ≤ config.levels) files → (erases : List Pending) (clock : ℕ) (plan : Plan)
        → choice config (shape_of config.levels files erases) clock [] ≡ Some plan → IsNamedBy config.levels files erases plan.file plan.erase }
    ensures due { (config : Fields) (files : List StoredFile) → All (λ file. file.level ≤ config.levels) files → (erases : List Pending) (to : ℕ) (plan : Plan)
        → due config (shape_of config.levels files erases) to ≡ Some plan → IsNamedBy config.levels files erases plan.file plan.erase }
{}

/// Where it names a sweep, the plan that is chosen, or due at a time, of what is stored names the first erase that is still to be done, and a file that isn't swept of it.
pub fn plan_is_in_the_store()
    ensures chosen { (s : Stored) → IsCoherent s → (plan : Plan) → choice s.manifest.config (due_shape (layout_of s)) s.manifest.clock [] ≡ Some plan → IsPlanIn s plan.file plan.erase }
    ensures due { (s : Stored) → IsCoherent s → (to : ℕ) (plan : Plan) → due s.manifest.config (due_shape (layout_of s)) to ≡ Some plan → IsPlanIn s plan.file plan.erase }
{}

/// The claim of a plan's task is the one that the choice gives the plan.
pub fn claim_is_chosen()
    ensures { (s : Stored) (task : PlainTask) → IsCoherent s → IsPlanned s task → IsOfItsKind task → claim_of (due_shape (layout_of s)) (plan_of task) ≡ Some (claim_of_task task) }
{}

/// The claim of the task of a plan that was chosen meets none of those that were given, and has a level and a key.
pub fn task_is_free()
    ensures { (s : Stored) (task : PlainTask) (claims : List Claim) → IsCoherent s → IsValidShape (shapes.shape_of (layout_of s)) → IsPlanned s task → IsOfItsKind task
        → choice s.manifest.config (due_shape (layout_of s)) s.manifest.clock claims ≡ Some (plan_of task) → IsProper (claim_of_task task) × (list_any (meets (claim_of_task task)) claims ≡ false) }
{}

/// A task stays one while changes are recorded, a segment is frozen and a buffer is flushed.
pub fn task_stays()
    ensures appended { (s : Stored) (task : PlainTask) → IsTaskFor s task → (next : Record) → count_of s < record_seq next
        → AllPairs (λ a b. a.seq < b.seq) (pending_of s ++ option_to_list (erase_of next)) → IsCoherent (appended s next) → IsTaskFor (appended s next) task }
    ensures frozen { (s : Stored) (task : PlainTask) → IsTaskFor s task → s.frozen ≡ None → (segment number : ℕ) → IsTaskFor (froze s segment number) task }
    ensures flushed { (s : Stored) (task : PlainTask) → IsTaskFor s task → (made : List StoredFile) (number : ℕ) → All (λ file. file.level ≡ 0) made
        → IsTaskFor (flushed s made number) task }
{}
