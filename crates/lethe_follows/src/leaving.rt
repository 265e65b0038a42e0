//! Erases that have nothing left to do leave what is stored.
ghost use Rattle.std.specs.Prelude.{◌≡◌, ◌<◌, ◌^◌, ◌++◌, length};
ghost use Rattle.lethe_base.specs.History.{History};
ghost use Rattle.lethe_base.specs.Spent.{done_upto};
ghost use Rattle.lethe_follows.specs.Leaving.{done_by, kept_erases, let_go};
ghost use Rattle.lethe_stored.specs.Kept.{IsFor};
ghost use Rattle.lethe_stored.specs.Stored.{IsCoherent, Stored, layout_of, pending_of, records_in};

/// Without the erases that are spent and that no segment records, what is stored stands for the same history.
pub fn erases_leave()
    ensures coherent { (s : Stored) → IsCoherent s → length (pending_of s) < 2 ^ 32 → IsCoherent (let_go s) }
    ensures pending { (s : Stored) → pending_of (let_go s) ≡ kept_erases s }
    ensures stands { (h : History) (s : Stored) → IsFor h s → IsFor h (let_go s) }
{}

/// The place up to which all pending erases are done is known by what the manifest cites of the files, and by the segments' records.
pub fn done_by_what_is_cited()
    ensures { (s : Stored) → IsCoherent s → done_upto (layout_of s) ≡ done_by s.manifest.files (s.active.records ++ records_in s.frozen) }
{}
