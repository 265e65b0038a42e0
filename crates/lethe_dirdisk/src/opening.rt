//! Opening a folder as a disk.
ghost use Rattle.std.specs.Prelude.{◌≡◌, ◌↔◌, IfOk, IsOk, IsErrOf};
ghost use Rattle.std.specs.Fs.{file_type, IsDir, IsFile};

use crate::disk::DirDisk;
use crate::file_name::spell_file_name;
use crate::folder::Folder;
use crate::place::Place;
use crate::refusal::{DirRefused, OpenStep};
use lethe_base::Name;
use std::alloc::Global;
use std::fs::Metadata;

/// What stands under the name of an object's file, where it is no file.
#[derive(Clone, Copy, Debug, PartialEq, Eq)]
enum Unfit {
    Folder,
    Other,
}

impl DirDisk {
    /// The disk of a folder, which is made where it is missing. It is held until the disk is dropped.
    pub fn open(rt: &HostRuntime, alloc: Global, path: &str) -> Result<DirDisk, DirRefused>
        ensures { IfOk result (λ disk. disk ≡ 0) }
    {
        let mut place = Place::open(rt, alloc, path)?;
        place
            .lock()
            .map_err(|error| DirRefused::of(OpenStep::Lock, error))?;
        let listing = place
            .list(alloc)
            .map_err(|error| DirRefused::of(OpenStep::List, error))?;
        if listing.has_foreign {
            return Err(DirRefused::Foreign {
                name: listing.foreign,
            });
        }
        look_at_all(alloc, &mut place, &listing.names)?;
        // The folder may be new, also where another process made it, and may have got another name.
        place
            .sync_own_name()
            .map_err(|error| DirRefused::of(OpenStep::SyncParent, error))?;
        Ok(DirDisk::of(Folder::new(place, listing.names)?))
    }
}

// Looks that nothing but files stands under these names.
fn look_at_all(alloc: Global, place: &mut Place, names: &[Name]) -> Result<(), DirRefused> {
    for name in names {
        let name = *name;
        let seen = place
            .look(name)
            .map_err(|error| DirRefused::of(OpenStep::Look { name }, error))?;
        if let Err(unfit) = judge(&seen) {
            return Err(unfit_of(alloc, name, unfit));
        }
    }
    Ok(())
}

// What stands under the name of an object's file has to be one.
fn judge(seen: &Metadata) -> Result<(), Unfit>
    ensures file { IsOk result ↔ IsFile (file_type seen.now) }
    ensures folder { IsErrOf result Unfit.Folder ↔ IsDir (file_type seen.now) }
{
    if seen.is_file() {
        Ok(())
    } else if seen.is_dir() {
        Err(Unfit::Folder)
    } else {
        Err(Unfit::Other)
    }
}

// A folder under such a name is as foreign as any other name.
fn unfit_of(alloc: Global, name: Name, unfit: Unfit) -> DirRefused {
    match unfit {
        Unfit::Folder => DirRefused::Foreign {
            name: Vec::from_slice(alloc, &spell_file_name(name)).ok(),
        },
        Unfit::Other => DirRefused::NoFile { name },
    }
}
