//! What an error of the file system means, and why a folder isn't opened.
ghost use Rattle.std.specs.Prelude.{◌≡◌, ◌↔◌, IsTrue, None};
ghost use Rattle.std.specs.IoError.{error_kind, raw_os_error};

use lethe_base::Name;
use std::alloc::AllocError;
use std::io::{Error, ErrorKind};

/// It is want of memory in this process, before the system was asked.
pub fn is_no_memory(error: &Error) -> bool
    ensures { IsTrue result ↔ ((error_kind error.now ≡ ErrorKind.OutOfMemory) × (raw_os_error error.now ≡ None)) }
{
    error.kind() == ErrorKind::OutOfMemory && error.raw_os_error().is_none()
}

/// What of an opening the system refused.
#[derive(Clone, Copy, Debug, PartialEq, Eq)]
pub enum OpenStep {
    /// To make the folder, which was missing.
    Make,
    /// To open it. It may be no folder.
    Open,
    /// To lock it. Where another process holds it, the error's kind is `WouldBlock`.
    Lock,
    /// To list it.
    List,
    /// To look at the file of an object.
    Look { name: Name },
    /// To open the folder that it lies in, or to sync that one.
    SyncParent,
}

/// Why a folder couldn't be opened. Nothing in it was changed.
#[derive(Debug, Drop)]
pub enum DirRefused {
    /// It has a name that is none of an object's file, or a folder under the name of one: this one, if there was memory for it, and maybe more.
    Foreign { name: Option<Vec<u8>> },
    /// What stands under the name of this object's file is neither a file nor a folder, but a link, a pipe or a device.
    NoFile { name: Name },
    /// It couldn't be made, listed or held: it is no folder, the system refused, or another process holds it.
    Folder { step: OpenStep, error: Error },
    /// There was no memory.
    NoMemory,
}

impl DirRefused {
    /// What an error in a step means.
    pub(crate) fn of(step: OpenStep, error: Error) -> DirRefused {
        if is_no_memory(&error) {
            DirRefused::NoMemory
        } else {
            DirRefused::Folder { step, error }
        }
    }
}

impl From<AllocError> for DirRefused {
    fn from(_: AllocError) -> Self {
        DirRefused::NoMemory
    }
}
