//! The paths of a folder and of the files in it.
ghost use Rattle.std.specs.Prelude.{◌≡◌, ◌≤◌, ◌+◌, ◌++◌, length, IfOk, string_bytes, string_capacity};
ghost use Rattle.lethe_dirdisk.specs.FileNames.{file_name};

use crate::file_name::{FILE_NAME_LEN, spell_file_name};
use lethe_base::Name;
use std::alloc::{AllocError, Global};

/// A folder's path, and the path of one file in it at a time. Both have their room from the beginning on.
#[derive(Drop)]
pub struct FolderPath {
    // With a slash behind it.
    folder: String,
    file: String,
    ghost roomy: { length (string_bytes folder) + 22 ≤ string_capacity file },
}

impl FolderPath {
    pub fn new(alloc: Global, path: &str) -> Result<FolderPath, AllocError> {
        let mut folder = String::from_str(alloc, path)?;
        // An empty path is no folder's, and has to stay none.
        if !path.is_empty() && !path.ends_with('/') {
            folder.push('/')?;
        }
        FolderPath::of(alloc, folder)
    }

    /// The path of a folder that is open under a number, as the system shows it. It leads to that folder wherever this lies.
    pub fn through(alloc: Global, number: i32) -> Result<FolderPath, AllocError> {
        FolderPath::of(alloc, format!(in alloc; "/proc/self/fd/{number}/")?)
    }

    fn of(alloc: Global, folder: String) -> Result<FolderPath, AllocError>
        ensures { IfOk result (λ path. string_bytes path.folder ≡ string_bytes folder) }
    {
        let mut file = String::from_str(alloc, folder.as_str())?;
        file.reserve(FILE_NAME_LEN)?;
        Ok(FolderPath { folder, file })
    }

    /// One more of the same folder.
    pub fn copy(&self, alloc: Global) -> Result<FolderPath, AllocError>
        ensures { IfOk result (λ path. string_bytes path.folder ≡ string_bytes self.now.folder) }
    {
        FolderPath::of(alloc, String::from_str(alloc, self.folder.as_str())?)
    }

    pub fn folder(&self) -> &str
        ensures { result.now ≡ string_bytes self.now.folder }
    {
        self.folder.as_str()
    }

    /// The path that was put last.
    pub fn file(&self) -> &str
        ensures { result.now ≡ string_bytes self.now.file }
    {
        self.file.as_str()
    }

    /// Puts the path of an object's file.
    pub fn put_file(&mut self, name: Name)
        ensures file { string_bytes self.new.file ≡ string_bytes self.old.folder ++ file_name name }
        ensures folder { string_bytes self.new.folder ≡ string_bytes self.old.folder }
    {
        let text = spell_file_name(name);
        match str::from_utf8(&text) {
            Ok(text) => self.put(text),
            Err(_) => unreachable!(),
        }
    }

    /// Puts the path of the folder that this one lies in.
    pub fn put_parent(&mut self)
        ensures { string_bytes self.new.folder ≡ string_bytes self.old.folder }
    {
        self.put("..");
    }

    fn put(&mut self, name: &str)
        requires { length name.now ≤ 22 }
        ensures file { string_bytes self.new.file ≡ string_bytes self.old.folder ++ name.now }
        ensures folder { string_bytes self.new.folder ≡ string_bytes self.old.folder }
    {
        self.file.clear();
        self.file.push_str(self.folder.as_str()).unwrap();
        self.file.push_str(name).unwrap();
    }
}
