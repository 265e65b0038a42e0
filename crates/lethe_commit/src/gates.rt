//! Which gate counts.
ghost use Rattle.std.specs.Prelude.{◌≡◌, ◌↔◌, IsTrue, List, [], ◌∷◌, ◌++◌};
ghost use Rattle.lethe_base.specs.declared.name.Name.{Name};
ghost use Rattle.lethe_commit.specs.Gates.{IsGreatestOf};

use lethe_base::{Kind, Name};

/// The number of the greatest gate among the names of a disk, by which its manifest counts. None exactly where there
/// is no gate.
pub fn choose(names: &[Name]) -> Option<u64>
    ensures { IsGreatestOf names.now result }
{
    let mut greatest = None;
    for name in names {
        greatest = with_name(greatest, *name);
    }
    greatest
}

// The greatest gate's number where this name is added to others.
fn with_name(greatest: Option<u64>, name: Name) -> Option<u64>
    ensures { (others : List Name) → IsGreatestOf others greatest → IsGreatestOf (others ++ name ∷ []) result }
{
    if !is_gate(name) {
        return greatest;
    }
    match greatest {
        Some(number) if name.no <= number => greatest,
        _ => Some(name.no),
    }
}

fn is_gate(name: Name) -> bool
    ensures { IsTrue result ↔ (name.kind ≡ Kind.Gate) }
{
    matches!(name.kind, Kind::Gate)
}
