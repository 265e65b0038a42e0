//! A disk as the store sees it: what a read gives, and what a crash may leave.
ghost use Rattle.std.specs.Prelude.{◌≡◌, ◌≤◌, ◌<◌, ◌+◌, ℕ, List, length, Some, None, IfOk, OnOk, IsSome, IsSomeAnd, IsErrOf};
ghost use Rattle.std.specs.FinMap.{insert, remove, keys};
ghost use Rattle.lethe_disk.specs.declared.disk.DiskRefused.TheVariants.{Failed, NoMemory};
ghost use Rattle.lethe_disk.specs.Directory.{object, content, write_in, IsCreated, IsWritten, IsRemoved, IsSame};
ghost use Rattle.lethe_disk.specs.Disk.{Seen, Image, IsSynced, IsIdle, Takes, HasCause};

use lethe_base::{Kind, Name};
use std::alloc::{AllocError, AllocFailed, Global};

/// Why a disk didn't do what it was asked.
#[derive(Clone, Copy, Debug, PartialEq, Eq)]
pub enum DiskRefused {
    /// The device failed, and its count of faults rose.
    Failed,
    /// There was no memory, and nothing was changed.
    NoMemory,
}

impl From<AllocError> for DiskRefused {
    ghost from_gives = { λ _ e. e ≡ NoMemory };

    fn from(_: AllocError) -> Self {
        DiskRefused::NoMemory
    }
}

impl From<lethe_base::NoMemory> for DiskRefused {
    ghost from_gives = { λ _ e. e ≡ NoMemory };

    fn from(_: lethe_base::NoMemory) -> Self {
        DiskRefused::NoMemory
    }
}

impl<T: Drop> From<AllocFailed<T>> for DiskRefused {
    ghost from_gives = { λ _ e. e ≡ NoMemory };

    fn from(_: AllocFailed<T>) -> Self {
        DiskRefused::NoMemory
    }
}

/// A disk of named objects, and ports through which several readers fetch its pages at once.
/// All functions but `port`, `fetch`, `port_faults` and `faults` are device calls.
///
/// Since the last sync that succeeded, a crash may leave an object that was created absent or with any bytes,
/// a range that was written with any bytes, and an object that was removed there or not.
/// After a call that failed nothing more is known of what was to be changed.
pub trait Disk: Send + Drop {
    /// An opened page. It is a value: whatever becomes of its object, its bytes stay those that the object had when it was
    /// opened. Readers share it.
    type Page: Send + Sync + Drop;

    /// What one reader fetches through. Each has counts of its own.
    type Port: Send + Drop;

    /// This kind of disk tells what it holds. All that is said of names and bytes is said of such disks.
    ghost tells: { Type 0 };

    /// The disk at this time, where it tells it.
    ghost seen: { Self → Seen };

    /// How often the disk has failed.
    ghost faults: { Self → ℕ };

    /// The ports of this kind of disk can fail.
    ghost ports_fail: { Type 0 };

    /// The bytes of a page, where this kind of disk tells them.
    ghost page_bytes: { Self.Page → List ℕ };

    /// How often fetches through a port have failed.
    ghost port_faults: { Self.Port → ℕ };

    /// How many fetches there were through a port. Contracts alone see it, and it has no last value.
    ghost fetches: { Self.Port → ℕ };

    /// Makes a new object.
    fn create(&mut self, name: Name, bytes: &[u8]) -> Result<(), DiskRefused>
        requires { tells → object (seen self.old).directory name ≡ None }
        ensures done { tells → OnOk result ((seen self.new).directory ≡ insert (seen self.old).directory name bytes.now) }
        ensures call { tells → Takes (IsCreated name) result (seen self.old) (seen self.new) }
        ensures cause { HasCause (faults self.old) (faults self.new) result };

    /// Writes over what an object holds, and past its end.
    fn write_at(&mut self, name: Name, at: u64, bytes: &[u8]) -> Result<(), DiskRefused>
        requires { tells → IsSomeAnd (object (seen self.old).directory name) (λ old. at ≤ length old) }
        ensures done { tells → OnOk result ((seen self.new).directory ≡ write_in (seen self.old).directory name at bytes.now) }

        // One byte inside the object takes no memory.
        ensures byte { length bytes.now ≡ 1 → (tells → at < length (content (seen self.old).directory name)) → IsErrOf result NoMemory → ⊥ }
        ensures call { tells → Takes (IsWritten name at (length bytes.now)) result (seen self.old) (seen self.new) }
        ensures cause { HasCause (faults self.old) (faults self.new) result };

    /// Removes an object. It takes no memory.
    fn remove(&mut self, name: Name) -> Result<(), DiskRefused>
        requires { tells → IsSome (object (seen self.old).directory name) }
        ensures no_memory { IsErrOf result NoMemory → ⊥ }
        ensures done { tells → OnOk result ((seen self.new).directory ≡ remove (seen self.old).directory name) }
        ensures call { tells → Takes (IsRemoved name) result (seen self.old) (seen self.new) }
        ensures cause { HasCause (faults self.old) (faults self.new) result };

    /// After it, a crash leaves what a read gives. It takes no memory.
    fn sync(&mut self) -> Result<(), DiskRefused>
        ensures no_memory { IsErrOf result NoMemory → ⊥ }
        ensures done { tells → OnOk result (IsSynced (seen self.new)) }
        ensures directory { tells → (seen self.new).directory ≡ (seen self.old).directory }
        ensures call { tells → Takes IsSame result (seen self.old) (seen self.new) }
        ensures cause { HasCause (faults self.old) (faults self.new) result };

    /// All names, ascending, each once.
    fn names(&mut self, alloc: Global) -> Result<Vec<Name>, DiskRefused>
        ensures done { tells → IfOk result (λ names. names.items ≡ keys (seen self.old).directory) }
        ensures directory { tells → (seen self.new).directory ≡ (seen self.old).directory }
        ensures call { tells → Takes IsSame result (seen self.old) (seen self.new) }
        ensures cause { HasCause (faults self.old) (faults self.new) result };

    /// The bytes of an object.
    fn read(&mut self, alloc: Global, name: Name) -> Result<Vec<u8>, DiskRefused>
        requires { tells → IsSome (object (seen self.old).directory name) }
        ensures done { tells → IfOk result (λ bytes. object (seen self.old).directory name ≡ Some bytes.items) }
        ensures directory { tells → (seen self.new).directory ≡ (seen self.old).directory }
        ensures call { tells → Takes IsSame result (seen self.old) (seen self.new) }
        ensures cause { HasCause (faults self.old) (faults self.new) result };

    /// Opens the page of that name.
    fn open_page(&mut self, alloc: Global, name: Name) -> Result<Self::Page, DiskRefused>
        requires kind { tells → name.kind ≡ Kind.Page }
        requires present { tells → IsSome (object (seen self.old).directory name) }
        ensures done { tells → IfOk result (λ page. object (seen self.old).directory name ≡ Some (page_bytes page)) }
        ensures directory { tells → (seen self.new).directory ≡ (seen self.old).directory }
        ensures call { tells → Takes IsSame result (seen self.old) (seen self.new) }
        ensures cause { HasCause (faults self.old) (faults self.new) result };

    /// A port for one more reader. It is no device call.
    fn port(&mut self, alloc: Global) -> Result<Self::Port, lethe_base::NoMemory>
        ensures done { IfOk result (λ port. (fetches port ≡ 0) × (port_faults port ≡ 0)) }
        ensures idle { tells → IsIdle (seen self.old) (seen self.new) }
        ensures faults { faults self.new ≡ faults self.old };

    /// A copy of the page's bytes. It is no device call. On a disk that tells nothing it may be any bytes.
    fn fetch(
        alloc: Global,
        port: &mut Self::Port,
        page: &Self::Page,
    ) -> Result<Vec<u8>, DiskRefused>
        ensures done { tells → IfOk result (λ bytes. bytes.items ≡ page_bytes page.now) }

        // Whatever it answers.
        ensures counted { fetches port.new ≡ fetches port.old + 1 }
        ensures cause { HasCause (port_faults port.old) (port_faults port.new) result }
        ensures can_fail { IsErrOf result Failed → ports_fail };

    /// How often fetches through the port have failed, up to the end of the type. It is no device call.
    fn port_faults(port: &Self::Port) -> u64
        ensures { result ≡ port_faults port.now };

    /// How often the disk has failed, up to the end of the type. It is no device call.
    fn faults(&self) -> u64
        ensures { result ≡ faults self.now };

    /// What a read gives, a crash may leave.
    ghost itself: { tells → (disk : Self) → Image (seen disk) (seen disk).directory };
}
