//! The layout of what is stored, and its pending erases.
ghost use Rattle.std.specs.Prelude.{ℕ, ◌<◌, ◌^◌, ◌++◌, List, All, filter_map, length};
ghost use Rattle.lethe_base.specs.History.{History};
ghost use Rattle.lethe_base.specs.declared.pending.Pending.{Pending};
ghost use Rattle.lethe_base.specs.Erases.{IsErase};
ghost use Rattle.lethe_manifest.specs.Manifests.{AreErases};
ghost use Rattle.lethe_moves.specs.Reaches.{Follows};
ghost use Rattle.lethe_segment.specs.Segments.{Ascends};
ghost use Rattle.lethe_segment.specs.declared.record.Record.{Record};
ghost use Rattle.lethe_stored.specs.Kept.{IsFor};
ghost use Rattle.lethe_stored.specs.Stored.{IsCoherent, Stored, erase_of, in_order, layout_of, pending_of};

/// What is stored follows its history, as a layout.
pub fn stored_follows()
    ensures { (h : History) (s : Stored) → IsCoherent s → IsFor h s → Follows s.manifest.config.threshold h (layout_of s) }
{}

/// Erases of a manifest and of the records of two segments have a spelling together, in the order of their places, where they
/// aren't too many.
pub fn erases_are_spelled()
    ensures { (erases : List Pending) (older newer : List Record) → All IsErase erases → Ascends 0 older → Ascends 0 newer
        → length (in_order (erases ++ filter_map erase_of (older ++ newer))) < 2 ^ 32
        → AreErases (in_order (erases ++ filter_map erase_of (older ++ newer))) }
{}

/// The pending erases of what is stored have a spelling, where they aren't too many.
pub fn pending_is_spelled()
    ensures { (s : Stored) → IsCoherent s → length (pending_of s) < 2 ^ 32 → AreErases (pending_of s) }
{}
