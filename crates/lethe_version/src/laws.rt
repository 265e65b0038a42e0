//! A law of finding. The function does nothing: its contract is the law.
ghost use Rattle.std.specs.Prelude.{◌≡◌, List, Option, All};
ghost use Rattle.lethe_base.specs.Keys.{Bytes};
ghost use Rattle.lethe_base.specs.declared.entry.Entry.{Entry};
ghost use Rattle.lethe_version.specs.Newest.{HasAtMostOne, IsNewestIn};

/// Where each file has at most one entry of a key, as files have that agree with their headers, one answer is the newest.
pub fn one_newest()
    ensures { (key : Bytes) (files : List (List (List Entry))) (a b : Option Entry) → All (HasAtMostOne key) files → IsNewestIn key files a → IsNewestIn key files b → a ≡ b }
{}
