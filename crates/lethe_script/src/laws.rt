//! Laws of the grammar, which no code needs.
ghost use Rattle.std.specs.Prelude.{◌≡◌, ◌≤◌, ◌<◌, List, length, All, Ok};
ghost use Rattle.std.specs.List.{flat_map};
ghost use Rattle.lethe_script.specs.declared.order.Order.{Order};
ghost use Rattle.lethe_script.specs.Grammar.{script_of};
ghost use Rattle.lethe_base.specs.Keys.{Bytes};
ghost use Rattle.lethe_script.specs.Fields.{key_of, value_of};
ghost use Rattle.lethe_script.specs.Slots.{AreSlotted};
ghost use Rattle.lethe_script.specs.Spelling.{marked, script_text, IsWritable, IsWritableKey, IsWritableValue, AreNumbered};

/// Each order that a line can ask for, of any caller, is spelled by a line that is read as it, so a script of these lines and
/// of lines `phase` asks for these orders in these phases, where each caller's acts find its slots as they need them. And
/// each key and each value may be written by its digits.
pub fn what_is_spelled_is_read()
    ensures lines { (phases : List (List Order)) → 0 < length phases → All (All IsWritable) phases → AreNumbered 1 phases → AreSlotted (flat_map (λ orders. orders) phases)
        → length (script_text phases) ≤ 16777216 → script_of (script_text phases) ≡ Ok phases }
    ensures keys { (key : Bytes) → IsWritableKey key → key_of (marked key) ≡ Ok key }
    ensures values { (value : Bytes) → IsWritableValue value → value_of (marked value) ≡ Ok value }
{}
