//! Pins: what a reader of an older version needs stays.
ghost use Rattle.std.specs.Prelude.{◌≡◌, ◌+◌, ◌↔◌, ◌⊎◌, ◌++◌, List, All, Contains, IfOk, IfErr, IsErrOf, OnErr, OnOk, flat_map, map};
ghost use Rattle.lethe_base.specs.History.{History};
ghost use Rattle.lethe_base.specs.Limits.{max_place};
ghost use Rattle.lethe_base.specs.declared.config.Fields.{Fields};
ghost use Rattle.lethe_base.specs.declared.name.Kind.TheVariants.{Page};
ghost use Rattle.lethe_base.specs.declared.name.Name as name;
ghost use Rattle.lethe_base.specs.declared.refused.Refused.TheVariants as refused;
ghost use Rattle.lethe_bound.specs.Limits.{IsLimit};
ghost use Rattle.lethe_advance.specs.Shown.{parts_by_level};
ghost use Rattle.lethe_file.specs.Agreement.{page_name};
ghost use Rattle.lethe_header.specs.Facts.{lines_of};
ghost use Rattle.lethe_pins.specs.Held.{Ascend, without};
ghost use Rattle.lethe_snapshot.specs.Points.{IsOf, IsTaken};
ghost use Rattle.lethe_snapshot.specs.Times.{IsLimitBy};
ghost use Rattle.lethe_state.specs.Remembered.{Remembers};
ghost use Rattle.lethe_stored.specs.Kept.{IsFor};
ghost use Rattle.lethe_stored.specs.Stored.{Stored, layout_of};
ghost use Rattle.lethe_core.specs.Pinned.{IsPageIn};
ghost use Rattle.lethe_core.specs.Pins.{IsPinOf};
ghost use Rattle.lethe_core.specs.Running.{Holds, IsSound};
ghost use Rattle.lethe_core.specs.StandsNow.{StandsNow};
ghost use Rattle.lethe_core.specs.View.{view_of};

use crate::Core;
use lethe_base::{Kind, MAX_PLACE, Name, NoMemory, Refused};
use lethe_disk::Disk;
use lethe_header::PageLine;
use lethe_snapshot::{Contents, Snapshot, limit_of};
use lethe_version::{Shared, Version};
use std::alloc::Global;

impl<D: Disk> Core<D> {
    /// What the store holds now, for a reader: its pin, which is held from now on, names the pages of its files. It makes no device call, and a store that is stopped
    /// gives it too.
    ///
    /// # Errors
    ///
    /// `Exhausted` where as many pins were made as there are numbers, else `NoMemory`. Then all is as it was.
    pub fn pin_now(&mut self, alloc: Global) -> Result<Snapshot<D>, Refused>
        requires { IsSound D.tells (view_of self.old) }
        ensures sound { IsSound D.tells (view_of self.new) }
        ensures stands { D.tells → (config : Fields) (h : History) → StandsNow config h (view_of self.old) → StandsNow config h (view_of self.new) }
        ensures held { D.tells → (s : Stored) → Holds (view_of self.old) s → Holds (view_of self.new) s }

        // It has the next number, and shows what is stored at the history's length.
        ensures number { IfOk result (λ snapshot. snapshot.pin.number ≡ self.old.pins.made + 1) }
        ensures point { IfOk result (λ snapshot. snapshot.point ≡ self.old.state.count) }
        ensures of { (s : Stored) (h : History) → Remembers s self.old.state (view_of self.old).levels → IsFor h s → IfOk result (IsOf h) }
        ensures limit { (s : Stored) → Remembers s self.old.state (view_of self.old).levels → IfOk result (λ snapshot. IsLimit s.manifest.config.threshold (layout_of s) snapshot.pin.limit) }

        // On any disk: it has what the store has in memory, and its files; its limit is taken from what is remembered and from the files' lines.
        ensures taken { IfOk result (IsTaken self.old.state (view_of self.old).levels) }
        ensures by { IfOk result (λ snapshot. IsLimitBy self.old.state (view_of self.old).levels snapshot.pin.limit) }

        // The pin comes in its place among those that are held, and nothing else changes.
        ensures pinned { IfOk result (λ snapshot. IsPinOf (view_of self.old) (view_of self.new) snapshot.pin.number snapshot.pin.limit) }
        ensures same { self.new ≡ record self.old { pins = self.new.pins } }
        ensures unchanged { OnErr result (self.new ≡ self.old) }
        ensures exhausted { IsErrOf result (refused.Exhausted max_place) ↔ self.old.pins.made ≡ max_place }
        ensures why { IfErr result (λ why. (why ≡ refused.Exhausted max_place) ⊎ (why ≡ refused.NoMemory)) }
    {
        if self.pins.next_number().is_none() {
            return Err(Refused::Exhausted { last: MAX_PLACE });
        }
        let Ok(names) = page_names(alloc, &self.version) else {
            return Err(Refused::NoMemory);
        };
        let Ok(contents) = Contents::of(alloc, &self.state, &self.version) else {
            return Err(Refused::NoMemory);
        };
        let limit = limit_of(&self.state, &self.version);
        match self.pins.pin(names, limit) {
            Ok(pin) => Ok(Snapshot::of(contents, pin)),
            Err(why) => Err(why),
        }
    }

    /// Lets the snapshot and its pin go. The pages that it alone named stay until the next merge, sweep or tick. It takes no memory and makes no device call.
    pub fn release_now(&mut self, snapshot: Snapshot<D>)
        requires { IsSound D.tells (view_of self.old) }
        ensures sound { IsSound D.tells (view_of self.new) }
        ensures stands { D.tells → (config : Fields) (h : History) → StandsNow config h (view_of self.old) → StandsNow config h (view_of self.new) }
        ensures held { D.tells → (s : Stored) → Holds (view_of self.old) s → Holds (view_of self.new) s }
        ensures same { self.new ≡ record self.old { pins = record self.old.pins { pins = without snapshot.pin.number self.old.pins.pins } } }
    {
        let pin = snapshot.release();
        self.pins.unpin(pin);
    }
}

/// The names of the pages of all files, ascending, each once.
fn page_names<D: Disk>(alloc: Global, version: &Version<D>) -> Result<Vec<Name>, NoMemory>
    ensures ascend { IfOk result (λ names. Ascend names.items) }
    ensures pages { IfOk result (λ names. All (λ name. name.kind ≡ Page) names.items) }
    ensures each { IfOk result (λ names. (name : name.Name) → Contains names.items name ↔ IsPageIn (parts_by_level version.now) name) }
{
    let mut names = Vec::new(alloc);
    for level in 0..version.levels() {
        add_files(&mut names, version.files(level))?;
    }
    names.sort()?;
    names.dedup();
    Ok(names)
}

/// Adds the names of the files' pages.
fn add_files<D: Disk>(names: &mut Vec<Name>, files: &[Shared<D>]) -> Result<(), NoMemory>
    ensures { OnOk result (names.new.items ≡ names.old.items ++ flat_map (λ shared. map (λ line. page_name line.no) (lines_of shared.file.value.header.tiles)) files.now) }
{
    for shared in files {
        add_pages(names, shared)?;
    }
    Ok(())
}

/// Adds the names of a file's pages.
fn add_pages<D: Disk>(names: &mut Vec<Name>, shared: &Shared<D>) -> Result<(), NoMemory>
    ensures { OnOk result (names.new.items ≡ names.old.items ++ map (λ line. page_name line.no) (lines_of shared.now.file.value.header.tiles)) }
{
    for tile in shared.file().header().tiles.items() {
        add_lines(names, tile.pages.items())?;
    }
    Ok(())
}

/// Adds the names of the pages of these lines.
fn add_lines(names: &mut Vec<Name>, lines: &[PageLine]) -> Result<(), NoMemory>
    ensures { OnOk result (names.new.items ≡ names.old.items ++ map (λ line. page_name line.no) lines.now) }
{
    for line in lines {
        names.push(Name {
            kind: Kind::Page,
            no: line.no,
        })?;
    }
    Ok(())
}
