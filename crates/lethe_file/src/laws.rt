//! A law of files. The function does nothing: its contract is the law.
ghost use Rattle.std.specs.Prelude.{◌≡◌, ℕ, List, Option, map};
ghost use Rattle.lethe_base.specs.Keys.{Bytes};
ghost use Rattle.lethe_base.specs.declared.entry.Entry.{Entry};
ghost use Rattle.lethe_header.specs.Headers.{HasSpelling};
ghost use Rattle.lethe_header.specs.declared.header.Header.{Header};
ghost use Rattle.lethe_file.specs.Agreement.{FileAgrees, entries_in};
ghost use Rattle.lethe_file.specs.Finding.{IsEntryOf};

/// A file that agrees with its header has at most one entry of a key.
pub fn one_entry()
    ensures { (header : Header) (bytes : List (List ℕ)) (key : Bytes) (a b : Option Entry) → HasSpelling header → FileAgrees header.tiles bytes
        → IsEntryOf key (map entries_in bytes) a → IsEntryOf key (map entries_in bytes) b → a ≡ b }
{}
