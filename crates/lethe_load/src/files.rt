//! Reading files.
ghost use Rattle.std.specs.Prelude.{◌≡◌, ◌≤◌, ◌⊎◌, ◌↔◌, ◌++◌, ◌∷◌, [], ℕ, List, map, Contains, Some, IfErr, IfOk, OnOk};
ghost use Rattle.std.specs.FinMap.{keys};
ghost use Rattle.std.specs.List.{AllZip};
ghost use Rattle.sha2.specs.Sha256.{sha256};
ghost use Rattle.lethe_disk.specs.Directory.{object};
ghost use Rattle.lethe_disk.specs.Quiet.{IsQuiet};
ghost use Rattle.lethe_header.specs.Facts.{lines_of};
ghost use Rattle.lethe_header.specs.Headers.{EachFollows, HasSpelling};
ghost use Rattle.lethe_file.specs.Agreement.{page_name};
ghost use Rattle.lethe_manifest.specs.declared.manifest.Cited.{Cited};
ghost use Rattle.lethe_version.specs.Versions.{bytes_of};
ghost use Rattle.lethe_load.specs.Damaged.{IsHeaderOf, IsSoundFile, IsDamagedFile};
ghost use Rattle.lethe_load.specs.Progress.{AreFiles, IsBadHeader, IsBadInFile};
ghost use Rattle.lethe_load.specs.Refused.{MayFail};

use crate::RecoverRefused;
use crate::listing::Listing;
use crate::numbers::PageNumbers;
use crate::pages::check_pages;
use crate::reading::read_object;
use lethe_base::{Kind, Name};
use lethe_disk::Disk;
use lethe_file::FileView;
use lethe_header::{Header, HeaderRefused, read_header};
use lethe_manifest::Cited;
use lethe_version::open_file;
use sha2::{Digest, Sha256};
use std::alloc::Global;
use std::collections::BTreeSet;

fn digest_of(bytes: &[u8]) -> [u8; 32]
    ensures { result ≡ sha256 bytes.now }
{
    let mut hasher = Sha256::new();
    hasher.update(bytes);
    hasher.finalize()
}

// The header of a file that is cited, where its number isn't known yet.
fn load_header<D: Disk>(
    alloc: Global,
    disk: &mut D,
    listing: &Listing,
    known: &BTreeSet<u64>,
    cited: &Cited,
) -> Result<Header, RecoverRefused>
    requires since { listing.now.faults ≤ D.faults disk.old }
    requires listed { D.tells → listing.now.names.items ≡ keys (D.seen disk.old).directory }
    ensures spelled { IfOk result HasSpelling }
    ensures own { IfOk result (λ header. header.no ≡ cited.now.no) }
    ensures new { IfOk result (λ _. Contains known.now.keys cited.now.no → ⊥) }
    ensures found { D.tells → IfOk result (IsHeaderOf (D.seen disk.old).directory cited.now) }
    ensures refused { IfErr result (MayFail D.tells (IsBadHeader (D.seen disk.old).directory known.now cited.now) listing.now.faults (D.faults disk.new)) }
    ensures quiet { D.tells → IsQuiet (D.seen disk.old) (D.seen disk.new) }
    ensures faults { D.faults disk.old ≤ D.faults disk.new }
{
    let name = Name {
        kind: Kind::File,
        no: cited.no,
    };
    if known.contains(&cited.no) {
        return Err(RecoverRefused::Damaged { name });
    }
    let bytes = read_object(alloc, disk, listing, name)?;
    if digest_of(&bytes) != cited.digest {
        return Err(RecoverRefused::Damaged { name });
    }
    match read_header(alloc, &bytes) {
        Ok(header) if header.no == cited.no => Ok(header),
        Err(HeaderRefused::NoMemory) => Err(RecoverRefused::NoMemory),
        _ => Err(RecoverRefused::Damaged { name }),
    }
}

// The file that is cited, with its pages opened. Its number is known then, and those of its pages are taken.
fn load_file<D: Disk>(
    alloc: Global,
    disk: &mut D,
    listing: &Listing,
    numbers: &mut PageNumbers,
    known: &mut BTreeSet<u64>,
    cited: &Cited,
) -> Result<FileView<D>, RecoverRefused>
    requires since { listing.now.faults ≤ D.faults disk.old }
    requires listed { D.tells → listing.now.names.items ≡ keys (D.seen disk.old).directory }
    ensures own { IfOk result (λ file. file.header.no ≡ cited.now.no) }
    ensures header { D.tells → IfOk result (λ file. IsHeaderOf (D.seen disk.old).directory cited.now file.header) }
    ensures pages { D.tells → IfOk result (λ file. map Some (bytes_of file) ≡ map (λ line. object (D.seen disk.old).directory (page_name line.no)) (lines_of file.header.tiles)) }
    ensures sound { D.tells → (before : List Cited) → AreFiles (D.seen disk.old).directory before numbers.old known.old
        → IfOk result (λ _. IsSoundFile (D.seen disk.old).directory numbers.old.next before cited.now) }
    ensures more { D.tells → (before : List Cited) → AreFiles (D.seen disk.old).directory before numbers.old known.old
        → OnOk result (AreFiles (D.seen disk.old).directory (before ++ cited.now ∷ []) numbers.new known.new) }
    ensures next { numbers.new.next ≡ numbers.old.next }
    ensures refused { IfErr result (MayFail D.tells (IsBadInFile (D.seen disk.old).directory numbers.old known.old cited.now) listing.now.faults (D.faults disk.new)) }
    ensures quiet { D.tells → IsQuiet (D.seen disk.old) (D.seen disk.new) }
    ensures faults { D.faults disk.old ≤ D.faults disk.new }
{
    let header = load_header(alloc, disk, listing, known, cited)?;
    check_pages(alloc, disk, listing, numbers, &header)?;
    known.insert(cited.no)?;
    match open_file(alloc, disk, header) {
        Ok(file) => Ok(file),
        Err(why) => Err(listing.interrupted(disk, why)),
    }
}

/// The files that are cited, in their order. The numbers of their pages are below the next.
pub fn load_files<D: Disk>(
    alloc: Global,
    disk: &mut D,
    listing: &Listing,
    next: u64,
    cited: &[Cited],
) -> Result<Vec<FileView<D>>, RecoverRefused>
    requires since { listing.now.faults ≤ D.faults disk.old }
    requires listed { D.tells → listing.now.names.items ≡ keys (D.seen disk.old).directory }
    ensures own { IfOk result (λ files. AllZip (λ cited file. file.header.no ≡ cited.no) cited.now files.items) }
    ensures headers { D.tells → IfOk result (λ files. AllZip (λ cited file. IsHeaderOf (D.seen disk.old).directory cited file.header) cited.now files.items) }
    ensures pages { D.tells → IfOk result (λ files. AllZip (λ cited file. map Some (bytes_of file) ≡ map (λ line. object (D.seen disk.old).directory (page_name line.no)) (lines_of file.header.tiles)) cited.now files.items) }
    ensures sound { D.tells → IfOk result (λ _. EachFollows (IsSoundFile (D.seen disk.old).directory next) cited.now) }
    ensures refused { IfErr result (MayFail D.tells (IsDamagedFile (D.seen disk.old).directory next cited.now) listing.now.faults (D.faults disk.new)) }
    ensures quiet { D.tells → IsQuiet (D.seen disk.old) (D.seen disk.new) }
    ensures faults { D.faults disk.old ≤ D.faults disk.new }
{
    let mut numbers = PageNumbers {
        next,
        taken: BTreeSet::new(alloc),
    };
    let mut known = BTreeSet::new(alloc);
    let mut files = Vec::new(alloc);
    for file in cited {
        let view = load_file(alloc, disk, listing, &mut numbers, &mut known, file)?;
        files.push(view)?;
    }
    Ok(files)
}
