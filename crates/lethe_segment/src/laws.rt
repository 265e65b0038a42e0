//! Laws of the spellings. The functions do nothing: their contracts are the laws.
ghost use Rattle.std.specs.Prelude.{◌≡◌, ◌<◌, ◌++◌, ◌^◌, ℕ, List, slice_get};
ghost use Rattle.lethe_segment.specs.declared.record.Record.{Record};
ghost use Rattle.lethe_segment.specs.Records.{record_bytes, record_seq, RecordHasSpelling};
ghost use Rattle.lethe_segment.specs.Segments.{segment_bytes, Ascends};
ghost use Rattle.lethe_segment.specs.Holding.{Holds};

/// Two records have different spellings, and no record's spelling begins another's.
pub fn one_record()
    ensures different { (a b : Record) → RecordHasSpelling a → RecordHasSpelling b
        → record_bytes a ≡ record_bytes b → a ≡ b }
    ensures no_prefix { (a b : Record) (x y : List ℕ) → RecordHasSpelling a → RecordHasSpelling b
        → record_bytes a ++ x ≡ record_bytes b ++ y → (a ≡ b) × (x ≡ y) }
{}

/// Two segments have different spellings.
pub fn one_segment()
    ensures { (m n : ℕ) (a b : List Record) → m < 2 ^ 64 → n < 2 ^ 64 → Ascends 0 a → Ascends 0 b
        → segment_bytes m a ≡ segment_bytes n b → (m ≡ n) × (a ≡ b) }
{}

/// A segment's spelling holds its records.
pub fn spelling_holds()
    ensures { (number : ℕ) (records : List Record) → Holds number records (segment_bytes number records) }
{}

/// The places of a segment's records strictly ascend.
pub fn ascending_places()
    ensures { (last : ℕ) (records : List Record) (i j : ℕ) (a b : Record) → Ascends last records → i < j
        → slice_get records i ≡ Some a → slice_get records j ≡ Some b → record_seq a < record_seq b }
{}
