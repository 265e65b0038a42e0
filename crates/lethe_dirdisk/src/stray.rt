//! A used folder whose gate is gone.
ghost use Rattle.std.specs.Prelude.{◌≡◌, None, find, if◌then◌else◌};
ghost use Rattle.std.specs.List.{list_any};
ghost use Rattle.lethe_dirdisk.specs.Strays.{is_gate, is_of_files, is_stray};

use lethe_base::{Kind, Name};

/// The greatest number that an object of a store has before its first gate: it begins with segment 1 and manifest 2.
const LAST_BEFORE_A_GATE: u64 = 2;

/// Of the names of a folder in which no gate lies, the first that no store has in its first moments: that of a header, of a page, or one with a number above 2. None where there is
/// a gate, or no such name.
///
/// A crash takes no gate from a store, since one goes only behind a newer one that is synced. So where there is such a name somebody took the gate away, which is an empty file, and an
/// opening would take the folder for one in which a store was just begun, and remove all that lies there.
pub fn first_stray(names: &[Name]) -> Option<Name>
    ensures { result ≡ (if list_any (λ name. is_gate name.kind) names.now then None else find is_stray names.now) }
{
    if has_gate(names) {
        None
    } else {
        first_of(names)
    }
}

fn first_of(names: &[Name]) -> Option<Name>
    ensures { result ≡ find is_stray names.now }
{
    names.iter().copied().find(|name| is_stray(*name))
}

fn has_gate(names: &[Name]) -> bool
    ensures { result ≡ list_any (λ name. is_gate name.kind) names.now }
{
    names.iter().any(|name| is_gate(name.kind))
}

fn is_gate(kind: Kind) -> bool
    ensures { result ≡ is_gate kind }
{
    match kind {
        Kind::Gate => true,
        Kind::Manifest | Kind::Segment | Kind::File | Kind::Page => false,
    }
}

fn is_of_files(kind: Kind) -> bool
    ensures { result ≡ is_of_files kind }
{
    match kind {
        Kind::File | Kind::Page => true,
        Kind::Gate | Kind::Manifest | Kind::Segment => false,
    }
}

fn is_stray(name: Name) -> bool
    ensures { result ≡ is_stray name }
{
    is_of_files(name.kind) || LAST_BEFORE_A_GATE < name.no
}
