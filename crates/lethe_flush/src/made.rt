//! Files that aren't written yet, taken apart.
ghost use Rattle.std.specs.Prelude.{◌≡◌, ◌+◌, ◌-◌, ◌<◌, ◌≤◌, ◌^◌, ◌++◌, ◌∷◌, [], map, drop, length, All, IfOk, OnOk};
ghost use Rattle.std.specs.List.{range_with_len};
ghost use Rattle.lethe_base.specs.Limits.{max_place};
ghost use Rattle.lethe_build.specs.Drafts.{IsDraft};
ghost use Rattle.lethe_stored.specs.Files.{file_name};
ghost use Rattle.lethe_flush.specs.Added.{IsAdded, file_by, numbered, pages_by};
ghost use Rattle.lethe_flush.specs.Made.{named_of};

use lethe_advance::{NewHeader, Object};
use lethe_base::{Kind, List, Name, NoMemory};
use lethe_build::{Built, Draft};
use lethe_manifest::Cited;
use std::alloc::Global;

/// Files that aren't written yet, taken apart.
#[derive(Debug, Drop)]
pub struct MadeFiles {
    /// Their headers, each with its level, in the order in which they were cut.
    pub headers: Vec<NewHeader>,
    /// Their objects under their names: of each file its header, and its pages but for those that were written before.
    pub objects: Vec<Object>,
    /// How a manifest cites the files, in the order of the headers.
    pub cited: Vec<Cited>,
    /// The first number that hasn't been drawn.
    pub next: u64,
}

impl MadeFiles {
    /// No file yet. The numbers from `first` on are free.
    pub fn none(alloc: Global, first: u64) -> MadeFiles
        ensures headers { result.headers.items ≡ [] }
        ensures objects { result.objects.items ≡ [] }
        ensures cited { result.cited.items ≡ [] }
        ensures next { result.next ≡ first }
    {
        MadeFiles {
            headers: Vec::new(alloc),
            objects: Vec::new(alloc),
            cited: Vec::new(alloc),
            next: first,
        }
    }

    /// Adds a draft's file, in a level and swept up to a place. The first of its pages were written before under these names; its other pages draw the next
    /// numbers, and behind them its header. Answers the names that are left.
    pub(crate) fn add<'a>(
        &mut self,
        alloc: Global,
        draft: Draft,
        level: u64,
        upto: u64,
        written: &'a [Name],
    ) -> Result<&'a [Name], NoMemory>
        requires draft { IsDraft draft }
        requires written { All (λ name. name.no ≤ max_place) written.now }
        requires room { self.old.next + (length draft.pages - length written.now) ≤ max_place }
        ensures left { IfOk result (λ left. left.now ≡ drop (length draft.pages) written.now) }
        ensures added { OnOk result (IsAdded (file_by level upto self.old.next draft written.now) (pages_by self.old.next draft written.now) self.old self.new) }
    {
        let pages = draft.pages.items().len();
        let there = written.len().min(pages);
        let numbers = numbers_of(alloc, &written[..there], self.next, pages - there)?;
        let no = self.next + (pages - there) as u64;
        let file = draft.numbered(alloc, &numbers, no)?;
        self.push(file, level, upto, there)?;
        Ok(&written[there..])
    }

    /// Adds a file, so many of whose pages were written before.
    pub fn push(&mut self, file: Built, level: u64, upto: u64, there: usize) -> Result<(), NoMemory>
        requires there { there ≤ length file.pages }
        requires room { self.old.next + (length file.pages - there) < 2 ^ 64 }
        requires no { file.header.no ≤ max_place }
        ensures headers { OnOk result (self.new.headers.items ≡ self.old.headers.items ++ record { level = level; header = file.header } ∷ []) }
        ensures cited { OnOk result (self.new.cited.items ≡ self.old.cited.items ++ record { level = level; no = file.header.no; swept = upto; digest = file.digest } ∷ []) }
        ensures objects { OnOk result (map named_of self.new.objects.items ≡ (map named_of self.old.objects.items ++ (file_name file.header.no, file.header_bytes) ∷ [])
            ++ numbered self.old.next (drop there file.pages)) }
        ensures next { OnOk result (self.new.next ≡ file.header.no + 1) }
    {
        let Built {
            header,
            header_bytes,
            digest,
            pages,
        } = file;
        let no = header.no;
        self.cited.push(Cited {
            level,
            no,
            swept: upto,
            digest,
        })?;
        let kind = Kind::File;
        self.objects.push(Object {
            name: Name { kind, no },
            bytes: header_bytes,
        })?;
        let more = pages.into_vec().split_off(there)?;
        add_pages(&mut self.objects, more, self.next)?;
        self.headers.push(NewHeader { level, header })?;
        self.next = no + 1;
        Ok(())
    }
}

/// The numbers of these names, and behind them so many from the next one on.
pub fn numbers_of(
    alloc: Global,
    written: &[Name],
    next: u64,
    more: usize,
) -> Result<Vec<u64>, NoMemory>
    requires { next + more < 2 ^ 64 }
    ensures { IfOk result (λ numbers. numbers.items ≡ map (λ name. name.no) written.now ++ range_with_len next more) }
{
    let mut numbers = Vec::new(alloc);
    for name in written {
        numbers.push(name.no)?;
    }
    for place in 0..more {
        numbers.push(next + place as u64)?;
    }
    Ok(numbers)
}

/// Adds pages under the numbers from `first` on.
fn add_pages(objects: &mut Vec<Object>, pages: Vec<List<u8>>, first: u64) -> Result<(), NoMemory>
    requires { first + length pages.items < 2 ^ 64 }
    ensures { OnOk result (map named_of objects.new.items ≡ map named_of objects.old.items ++ numbered first pages.items) }
{
    let mut next = first;
    for page in pages {
        let kind = Kind::Page;
        objects.push(Object {
            name: Name { kind, no: next },
            bytes: page,
        })?;
        next += 1;
    }
    Ok(())
}
