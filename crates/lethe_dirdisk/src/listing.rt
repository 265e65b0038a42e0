//! The names in a folder.
ghost use Rattle.std.specs.Prelude.{◌≡◌, ◌<◌, ◌^◌, ◌++◌, ◌∷◌, [], ◌↔◌, false, OnOk, IfSome, IsTrue, Contains, codes};
ghost use Rattle.lethe_base.specs.declared.name.Name.{Name};
ghost use Rattle.lethe_dirdisk.specs.FileNames.{file_name, IsObjectFile};

use crate::file_name::read_file_name;
use lethe_base::Name;
use std::alloc::{AllocError, Global};
use std::io::{self, Read};
use std::rt::Files;

/// The names in a folder.
#[derive(Drop)]
pub struct Listing {
    /// Those of objects, ascending.
    pub names: Vec<Name>,
    /// There is another one.
    pub has_foreign: bool,
    /// The first such one that the system told, if there was memory for it.
    pub foreign: Option<Vec<u8>>,
}

impl Listing {
    /// The names in the folder of this path.
    pub fn of(rt: &HostRuntime, alloc: Global, path: &str) -> io::Result<Listing> {
        let mut listing = Listing {
            names: Vec::new(alloc),
            has_foreign: false,
            foreign: None,
        };
        let mut folder = rt.open_dir(path)?;
        let mut piece = [0; 4096];
        for _ in 0..u64::MAX {
            let count = folder.read(&mut piece)?;
            if count == 0 {
                break;
            }
            listing.take(alloc, &piece[..count])?;
        }
        listing.names.sort_unstable();
        Ok(listing)
    }

    // Takes names that have each a zero behind it.
    fn take(&mut self, alloc: Global, piece: &[u8]) -> Result<(), AllocError> {
        for name in piece.split(|byte| *byte == 0) {
            if !is_own(name) {
                self.take_name(alloc, name)?;
            }
        }
        Ok(())
    }

    fn take_name(&mut self, alloc: Global, text: &[u8]) -> Result<(), AllocError>
        ensures object { (name : Name) → name.no < 2 ^ 64 → text.now ≡ file_name name → OnOk result ((self.new.names.items ≡ self.old.names.items ++ name ∷ []) × (self.new.has_foreign ≡ self.old.has_foreign)) }
        ensures foreign { (IsObjectFile text.now → ⊥) → (self.new.names.items ≡ self.old.names.items) × IsTrue self.new.has_foreign }
    {
        match read_file_name(text) {
            Some(name) => self.names.push(name)?,
            None => self.note_foreign(alloc, text),
        }
        Ok(())
    }

    fn note_foreign(&mut self, alloc: Global, text: &[u8])
        ensures names { self.new.names.items ≡ self.old.names.items }
        ensures foreign { IsTrue self.new.has_foreign }
        // The first one stays.
        ensures first { IsTrue self.old.has_foreign → self.new.foreign ≡ self.old.foreign }
        ensures name { self.old.has_foreign ≡ false → IfSome self.new.foreign (λ name. name.items ≡ text.now) }
    {
        if !self.has_foreign {
            self.has_foreign = true;
            self.foreign = Vec::from_slice(alloc, text).ok();
        }
    }
}

// What stands behind the last zero, and the folder's names of itself and of the one that it lies in.
fn is_own(name: &[u8]) -> bool
    ensures { IsTrue result ↔ Contains ([] ∷ codes "." ∷ codes ".." ∷ []) name.now }
{
    matches!(name, b"" | b"." | b"..")
}
