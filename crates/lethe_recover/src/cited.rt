//! The names that a manifest and its files cite.
ghost use Rattle.std.specs.Prelude.{◌≡◌, ◌↔◌, ◌++◌, IsTrue, Contains, map, IfOk, OnOk};
ghost use Rattle.std.specs.BTreeSet.{contains};
ghost use Rattle.lethe_base.specs.Names.{name_cmp};
ghost use Rattle.lethe_base.specs.declared.name.Name.{Name};
ghost use Rattle.lethe_recover.specs.Cited.{line_name, names_in, names_of};
ghost use Rattle.lethe_stored.specs.Stored.{segment_name};

use lethe_base::{Kind, Name, NoMemory};
use lethe_disk::Disk;
use lethe_file::FileView;
use lethe_header::{Header, PageLine};
use lethe_manifest::Manifest;
use std::alloc::Global;
use std::collections::BTreeSet;

/// The names of the manifest and its gate, and what it cites, where these are its files.
pub(crate) fn cited_names<D: Disk>(
    alloc: Global,
    manifest: &Manifest,
    files: &[FileView<D>],
) -> Result<Vec<Name>, NoMemory>
    ensures { IfOk result (λ names. names.items ≡ names_of manifest.now (map (λ file. file.header) files.now)) }
{
    let mut names = Vec::new(alloc);
    names.push(Name {
        kind: Kind::Gate,
        no: manifest.no,
    })?;
    names.push(Name {
        kind: Kind::Manifest,
        no: manifest.no,
    })?;
    push_segments(&mut names, manifest.segments.items())?;
    for file in files {
        push_file(&mut names, file.header())?;
    }
    Ok(names)
}

/// Adds the names of the segments of these numbers.
pub(crate) fn push_segments(names: &mut Vec<Name>, segments: &[u64]) -> Result<(), NoMemory>
    ensures { OnOk result (names.new.items ≡ names.old.items ++ map segment_name segments.now) }
{
    for segment in segments {
        names.push(Name {
            kind: Kind::Segment,
            no: *segment,
        })?;
    }
    Ok(())
}

// Adds the names of a file's objects.
fn push_file(names: &mut Vec<Name>, header: &Header) -> Result<(), NoMemory>
    ensures { OnOk result (names.new.items ≡ names.old.items ++ names_in header.now) }
{
    names.push(Name {
        kind: Kind::File,
        no: header.no,
    })?;
    for tile in header.tiles.items() {
        push_pages(names, tile.pages.items())?;
    }
    Ok(())
}

// Adds the names of the pages of these lines.
fn push_pages(names: &mut Vec<Name>, lines: &[PageLine]) -> Result<(), NoMemory>
    ensures { OnOk result (names.new.items ≡ names.old.items ++ map line_name lines.now) }
{
    for line in lines {
        names.push(Name {
            kind: Kind::Page,
            no: line.no,
        })?;
    }
    Ok(())
}

/// The set of these names.
pub(crate) fn set_of(alloc: Global, names: Vec<Name>) -> Result<BTreeSet<Name>, NoMemory>
    ensures { IfOk result (λ set. (name : Name) → IsTrue (contains name_cmp set name) ↔ Contains names.items name) }
{
    let mut set = BTreeSet::new(alloc);
    for name in names {
        set.insert(name)?;
    }
    Ok(set)
}
