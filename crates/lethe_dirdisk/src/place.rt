//! Where a folder is, and what is asked of the system about it.
ghost use Rattle.std.specs.Prelude.{◌≡◌, ◌≤◌, IfOk, vec_len};
ghost use Rattle.lethe_dirdisk.specs.Lengths.{longest};

use crate::length::{longest_of, read_front};
use crate::listing::Listing;
use crate::path::FolderPath;
use crate::refusal::{DirRefused, OpenStep};
use lethe_base::Name;
use std::alloc::Global;
use std::fs::{self, DirBuilder, File, Metadata, OpenOptions};
use std::io::{self, ErrorKind};
use std::os::fd::AsRawFd;
use std::os::unix::fs::{DirBuilderExt, MetadataExt, OpenOptionsExt};

/// Who may do what with a folder that is made: its owner everything, others nothing.
const FOLDER_MODE: u32 = 0o700;

/// The same of a file that is made.
const FILE_MODE: u32 = 0o600;

/// A folder that is open, and the way to the files in it.
#[derive(Drop)]
pub struct Place {
    rt: HostRuntime,
    // The folder itself.
    itself: File,
    path: FolderPath,
    // The path goes through the open folder, so it leads there whatever becomes of the folder's own path.
    is_fixed: bool,
}

impl Place {
    /// The folder of a path. It is made where it is missing.
    pub fn open(rt: &HostRuntime, alloc: Global, path: &str) -> Result<Place, DirRefused> {
        let path = FolderPath::new(alloc, path)?;
        match DirBuilder::new()
            .mode(FOLDER_MODE)
            .create(rt, path.folder())
        {
            Err(error) if error.kind() != ErrorKind::AlreadyExists => {
                Err(DirRefused::of(OpenStep::Make, error))
            }
            _ => Place::at(rt, alloc, path).map_err(|error| DirRefused::of(OpenStep::Open, error)),
        }
    }

    /// The same folder, opened once more. What is locked isn't the new one.
    pub fn copy(&self, alloc: Global) -> io::Result<Place> {
        Place::at(&self.rt, alloc, self.path.copy(alloc)?)
    }

    // Where the system shows no open files under a path, the folder's own path stays the way.
    fn at(rt: &HostRuntime, alloc: Global, path: FolderPath) -> io::Result<Place> {
        // With the slash behind it, nothing but a folder is opened.
        let itself = beside_streams(File::open(rt, path.folder())?)?;
        let through = FolderPath::through(alloc, itself.as_raw_fd())?;
        let is_fixed = match fs::metadata(rt, through.folder()) {
            Ok(seen) => is_same(&seen, &itself.metadata()?),
            Err(_) => false,
        };
        Ok(Place {
            rt: *rt,
            itself,
            path: if is_fixed { through } else { path },
            is_fixed,
        })
    }

    /// Locks the folder as long as it is open. Where another one has it locked, it fails.
    pub fn lock(&self) -> io::Result<()> {
        Ok(self.itself.try_lock()?)
    }

    /// Brings the names in the folder to the disk.
    pub fn sync_names(&self) -> io::Result<()> {
        self.itself.sync_all()
    }

    /// Brings the folder's own name to the disk.
    pub fn sync_own_name(&mut self) -> io::Result<()> {
        self.path.put_parent();
        beside_streams(File::open(&self.rt, self.path.file())?)?.sync_all()
    }

    /// Looks that the way leads to the folder still.
    pub fn confirm(&self) -> io::Result<()> {
        if self.is_fixed {
            return Ok(());
        }
        let seen = fs::metadata(&self.rt, self.path.folder())?;
        if is_same(&seen, &self.itself.metadata()?) {
            Ok(())
        } else {
            Err(ErrorKind::NotFound.into())
        }
    }

    /// The names in the folder. One that was removed isn't listed: the system would tell that it has none.
    pub fn list(&self, alloc: Global) -> io::Result<Listing> {
        if self.itself.metadata()?.nlink() == 0 {
            return Err(ErrorKind::NotFound.into());
        }
        Listing::of(&self.rt, alloc, self.path.folder())
    }

    /// What stands under a name. A link isn't followed.
    pub fn look(&mut self, name: Name) -> io::Result<Metadata> {
        self.path.put_file(name);
        fs::symlink_metadata(&self.rt, self.path.file())
    }

    /// Makes a new file, and opens it for writing. Where anything stands under the name, it fails.
    pub fn create(&mut self, name: Name) -> io::Result<File> {
        self.path.put_file(name);
        let file = OpenOptions::new()
            .write(true)
            .create_new(true)
            .mode(FILE_MODE)
            .open(&self.rt, self.path.file())?;
        beside_streams(file)
    }

    pub fn open_to_write(&mut self, name: Name) -> io::Result<File> {
        let (file, _) = self.open_file(name, OpenOptions::new().write(true))?;
        Ok(file)
    }

    pub fn open_to_read(&mut self, name: Name) -> io::Result<File> {
        let (file, _) = self.open_file(name, OpenOptions::new().read(true))?;
        Ok(file)
    }

    // Opens what stands under a name, and tells its length. It is looked at first: the opening of a pipe would wait, that of a
    // device may do something, and that of a link goes elsewhere. What has come in its place since isn't used.
    fn open_file(&mut self, name: Name, options: &OpenOptions) -> io::Result<(File, u64)> {
        let seen = self.look(name)?;
        if !seen.is_file() {
            return Err(ErrorKind::InvalidInput.into());
        }
        let file = beside_streams(options.open(&self.rt, self.path.file())?)?;
        let opened = file.metadata()?;
        if is_same(&seen, &opened) {
            Ok((file, opened.len()))
        } else {
            Err(ErrorKind::InvalidInput.into())
        }
    }

    /// The bytes of a file, up to the greatest length of its kind.
    pub fn read(&mut self, alloc: Global, name: Name) -> io::Result<Vec<u8>>
        ensures { IfOk result (λ bytes. vec_len bytes ≤ longest name.kind) }
    {
        let (file, len) = self.open_file(name, OpenOptions::new().read(true))?;
        read_front(alloc, &file, len.min(longest_of(name.kind)) as usize)
    }

    pub fn remove(&mut self, name: Name) -> io::Result<()> {
        self.path.put_file(name);
        fs::remove_file(&self.rt, self.path.file())
    }
}

// Two looks met the same file or folder.
fn is_same(one: &Metadata, other: &Metadata) -> bool {
    one.dev() == other.dev() && one.ino() == other.ino()
}

// What is meant for a standard stream that was closed must not land in the file.
fn beside_streams(file: File) -> io::Result<File> {
    if file.as_raw_fd() <= 2 {
        file.try_clone()
    } else {
        Ok(file)
    }
}
