//! A segment records each erase of the manifest that stands behind a record of one: that stays so.
ghost use Rattle.std.specs.Prelude.{◌≡◌, ℕ, ◌<◌, [], List, None, Contains, length};
ghost use Rattle.lethe_base.specs.History.{History};
ghost use Rattle.lethe_base.specs.declared.pending.Pending.{Pending};
ghost use Rattle.lethe_follows.specs.Filed.{flushed};
ghost use Rattle.lethe_follows.specs.Young.{AreLaterRecorded};
ghost use Rattle.lethe_segment.specs.Records.{record_seq};
ghost use Rattle.lethe_segment.specs.declared.record.Record.{Record};
ghost use Rattle.lethe_stored.specs.Files.{StoredFile};
ghost use Rattle.lethe_stored.specs.Kept.{IsFor};
ghost use Rattle.lethe_stored.specs.Stored.{Stored, appended, froze, pending_of, records_of};

/// It is so where there is no record, and stays so while a record comes behind the history, a segment is frozen or flushed, or a step leaves the segments as they are and
/// no erase comes to the pending ones.
pub fn later_stay_recorded()
    ensures none { (s : Stored) → records_of s ≡ [] → AreLaterRecorded s }
    ensures appended { (h : History) (s : Stored) → IsFor h s → AreLaterRecorded s → (next : Record) → length h < record_seq next → AreLaterRecorded (appended s next) }
    ensures frozen { (s : Stored) → s.frozen ≡ None → AreLaterRecorded s → (segment number : ℕ) → AreLaterRecorded (froze s segment number) }
    ensures flushed { (h : History) (s : Stored) → IsFor h s → AreLaterRecorded s → (made : List StoredFile) (number : ℕ) → AreLaterRecorded (flushed s made number) }
    ensures others { (s t : Stored) → AreLaterRecorded s → t.frozen ≡ s.frozen → t.active ≡ s.active
        → ((erase : Pending) → Contains t.manifest.erases erase → Contains (pending_of s) erase) → AreLaterRecorded t }
{}
