//! When a directory is clean, what pages of a merge have, and what leaves nothing torn.
ghost use Rattle.std.specs.Prelude.{◌≡◌, ◌⊎◌, ℕ, List, [], ◌∷◌, ◌++◌, Bool, Some, All, Contains, map};
ghost use Rattle.std.specs.FinMap.{insert};
ghost use Rattle.lethe_base.specs.History.{History, after};
ghost use Rattle.lethe_base.specs.declared.config.Fields.{Fields};
ghost use Rattle.lethe_base.specs.declared.name.Name.{Name};
ghost use Rattle.lethe_base.specs.declared.pending.Pending.{Pending};
ghost use Rattle.lethe_build.specs.Drafts.{AreDraftsOf};
ghost use Rattle.lethe_build.specs.declared.draft.Draft.{Draft};
ghost use Rattle.lethe_commit.specs.Gates.{gate_name};
ghost use Rattle.lethe_commit.specs.Place.{insert_all};
ghost use Rattle.lethe_disk.specs.Directory.{Directory, object};
ghost use Rattle.lethe_file.specs.Agreement.{page_name};
ghost use Rattle.lethe_build.specs.Drafts.{pages_in};
ghost use Rattle.lethe_flush.specs.Merged.{entries_in};
ghost use Rattle.lethe_merge.specs.Merge.{merged};
ghost use Rattle.lethe_segment.specs.declared.record.Record.{Record};
ghost use Rattle.lethe_segment.specs.Segments.{segment_bytes};
ghost use Rattle.lethe_stored.specs.Clean.{IsClean};
ghost use Rattle.lethe_stored.specs.Encodes.{Encodes};
ghost use Rattle.lethe_stored.specs.Files.{StoredFile, file_of};
ghost use Rattle.lethe_stored.specs.Kept.{IsFor};
ghost use Rattle.lethe_stored.specs.Stored.{Stored, IsCited, IsCoherent, appended, part_names, segment_name};
ghost use Rattle.lethe_advance.specs.Settled.{HasOnly};
ghost use Rattle.lethe_advance.specs.Steps.{IsStep};
ghost use Rattle.lethe_advance.specs.Untorn.{IsUntorn};
ghost use Rattle.lethe_advance.specs.declared.new_header.NewHeader.{NewHeader};
ghost use Rattle.lethe_advance.specs.declared.step.Step.{Step};
ghost use Rattle.lethe_clean.specs.Copied.{IsCopied, IsCopiedOf, IsTimely};

/// A directory that has what is stored, untorn, and beside it only pages of which each put is a stored file's, or none is overdue, is clean at the history's clock.
pub fn stored_is_clean()
    ensures { (h : History) (s : Stored) (loose : List (Name × List ℕ)) (d : Directory) → IsCoherent s → Encodes d s → IsFor h s
        → HasOnly s loose d → IsUntorn s d → All (λ named. IsCopied s named ⊎ IsTimely s.manifest.config.threshold (after h).clock h named) loose
        → IsClean s.manifest.config.threshold d h (after h).clock }
{}

/// The pages of a merge's outputs, under whatever numbers, have only puts that its inputs have.
pub fn outputs_are_copied()
    ensures { (config : Fields) (inputs : List StoredFile) (erases : List Pending) (alone : Bool) (drafts : List Draft)
        → AreDraftsOf config (merged (entries_in inputs) erases alone) drafts
        → (number : ℕ) (bytes : List ℕ) → Contains (pages_in drafts) bytes → IsCopiedOf (map file_of inputs) (page_name number, bytes) }
{}

/// Pages that have only puts of some files have only those of what is stored, where it has these files.
pub fn copied_are_stored()
    ensures { (s : Stored) (files : List StoredFile) (loose : List (Name × List ℕ)) → IsCoherent s → All (Contains s.files) files
        → All (IsCopiedOf (map file_of files)) loose → All (IsCopied s) loose }
{}

/// What is stored stays untorn by a step whose new gate is empty, where what is cited next stays as the step found or wrote it, by a record, and by whatever leaves
/// what is cited as it was.
pub fn untorn_stays()
    ensures step { (s t : Stored) (loose left : List (Name × List ℕ)) (headers : List NewHeader) (step : Step) (d c : Directory)
        → IsCoherent s → IsStep s loose t left headers step → HasOnly s loose d → IsUntorn s d
        → ((name : Name) → Contains (part_names t) name → object c name ≡ object (insert_all step.objects.items d) name)
        → object c (gate_name t.manifest.no) ≡ Some [] → IsUntorn t c }
    ensures written { (s : Stored) (d : Directory) (next : Record) → IsCoherent s → IsUntorn s d
        → IsUntorn (appended s next) (insert d (segment_name s.active.no) (segment_bytes s.active.no (s.active.records ++ next ∷ []))) }
    ensures beside { (s : Stored) (d c : Directory) → IsUntorn s d → ((name : Name) → IsCited s name → object c name ≡ object d name) → IsUntorn s c }
{}
