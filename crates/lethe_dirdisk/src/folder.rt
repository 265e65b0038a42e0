//! An open folder: its files, and what of them a sync has still to reach. It tells each error, and counts none.
ghost use Rattle.std.specs.Prelude.{◌≡◌, ◌≤◌, ◌<◌, ◌+◌, length, IfOk, IsErr, vec_len};
ghost use Rattle.lethe_dirdisk.specs.Lengths.{longest};

use crate::length::fits;
use crate::place::Place;
use lethe_base::Name;
use std::alloc::{AllocError, Global};
use std::fs::File;
use std::io::{self, ErrorKind};
use std::os::unix::fs::FileExt;

/// The file that was made or written last. It stays open.
#[derive(Drop)]
struct Current {
    name: Name,
    file: File,
    // It was made or written since the last sync.
    is_changed: bool,
}

/// A folder that is held.
#[derive(Drop)]
pub struct Folder {
    place: Place,
    // The names of the objects, ascending, where no file was made or removed since they were listed.
    names: Option<Vec<Name>>,
    current: Option<Current>,
    // The other files that were made or written since the last sync.
    changed: Vec<Name>,
    // Names were made or removed since the last sync.
    is_renamed: bool,
    // A sync failed. The system may have forgotten what it was to write, so none may succeed any more.
    is_torn: bool,
}

impl Folder {
    /// A folder that is locked, with the names of its objects. Neither they nor their bytes need be on the disk yet.
    pub fn new(place: Place, names: Vec<Name>) -> Result<Folder, AllocError> {
        Ok(Folder {
            place,
            changed: names.clone()?,
            names: Some(names),
            current: None,
            is_renamed: true,
            is_torn: false,
        })
    }

    /// The same place, for one who reads beside it.
    pub fn place(&self, alloc: Global) -> io::Result<Place> {
        self.place.copy(alloc)
    }

    /// Makes a file.
    pub fn create(&mut self, name: Name, bytes: &[u8]) -> io::Result<()>
        ensures long { longest name.kind < length bytes.now → IsErr result }
    {
        fits(name, 0, bytes.len())?;
        self.put_aside()?;
        self.names = None;
        self.is_renamed = true;
        let file = self.place.create(name)?;
        self.write(name, file, bytes, 0)
    }

    /// Writes into a file.
    pub fn write_at(&mut self, name: Name, at: u64, bytes: &[u8]) -> io::Result<()>
        ensures long { longest name.kind < at + length bytes.now → IsErr result }
    {
        fits(name, at, bytes.len())?;
        match self.current.take() {
            Some(current) if current.name == name => self.write(name, current.file, bytes, at),
            other => {
                self.current = other;
                self.put_aside()?;
                let file = self.place.open_to_write(name)?;
                self.forget(name);
                self.write(name, file, bytes, at)
            }
        }
    }

    // Writes into a file, which stays open.
    fn write(&mut self, name: Name, file: File, bytes: &[u8], at: u64) -> io::Result<()> {
        let written = file.write_all_at(bytes, at);
        self.current = Some(Current {
            name,
            file,
            is_changed: true,
        });
        written
    }

    // Closes the file that is open, and notes it where a sync has to reach it. Without memory for that it stays open.
    fn put_aside(&mut self) -> io::Result<()> {
        if let Some(current) = &self.current
            && current.is_changed
        {
            self.changed.push(current.name)?;
        }
        self.current = None;
        Ok(())
    }

    // Takes a file off those that a sync has to reach.
    fn forget(&mut self, name: Name) {
        self.changed.retain(|changed| *changed != name);
    }

    /// Removes a file.
    pub fn remove(&mut self, name: Name) -> io::Result<()> {
        self.names = None;
        self.is_renamed = true;
        self.place.remove(name)?;
        self.forget(name);
        match self.current.take() {
            Some(current) if current.name == name => {}
            other => self.current = other,
        }
        Ok(())
    }

    /// Brings to the disk what was made, written and removed since the last sync.
    pub fn sync(&mut self) -> io::Result<()> {
        if self.is_torn {
            return Err(ErrorKind::Other.into());
        }
        let synced = self.sync_changes();
        self.is_torn = synced.is_err();
        synced
    }

    fn sync_changes(&mut self) -> io::Result<()> {
        if self.is_renamed || !self.changed.is_empty() {
            self.place.confirm()?;
        }
        if let Some(current) = &mut self.current
            && current.is_changed
        {
            current.file.sync_data()?;
            current.is_changed = false;
        }
        while let Some(name) = self.changed.pop() {
            self.place.open_to_read(name)?.sync_data()?;
        }
        if self.is_renamed {
            self.place.sync_names()?;
            self.is_renamed = false;
        }
        Ok(())
    }

    /// The names of the objects, ascending. The folder is held, so it is listed again only behind a change.
    pub fn names(&mut self, alloc: Global) -> io::Result<Vec<Name>> {
        let names = match self.names.take() {
            Some(names) => names,
            None => self.place.list(alloc)?.names,
        };
        let copy: Result<_, _> = names.clone();
        self.names = Some(names);
        Ok(copy?)
    }

    /// The bytes of a file, up to the greatest length of its kind.
    pub fn read(&mut self, alloc: Global, name: Name) -> io::Result<Vec<u8>>
        ensures { IfOk result (λ bytes. vec_len bytes ≤ longest name.kind) }
    {
        self.place.read(alloc, name)
    }

    /// Looks that a file is there and can be opened.
    pub fn look(&mut self, name: Name) -> io::Result<()> {
        self.place.open_to_read(name)?;
        Ok(())
    }
}
