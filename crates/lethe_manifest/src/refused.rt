//! Why bytes are no manifest.
ghost use Rattle.std.specs.Prelude.{◌≡◌};
ghost use Rattle.lethe_manifest.specs.declared.refused.ManifestRefused.TheVariants.{NoMemory};

use std::alloc::AllocFailed;

/// Why bytes are no manifest. `at` is where the field begins.
#[derive(Clone, Copy, Debug, PartialEq, Eq)]
pub enum ManifestRefused {
    /// The field goes past the end.
    Short { at: u64 },
    /// No manifest has this in the field: other letters or another format, a number out of its range, or a
    /// configuration's out of its limits.
    Kind { at: u64 },
    /// The field breaks an order: the next number isn't above the manifest's own or a cited one, an erase's place isn't
    /// above that of the erase before, its upper end isn't above its lower one, or a level is below that of the file
    /// before. What breaks its range too is of another kind.
    Order { at: u64 },
    /// The manifest ends before the byte at `at`.
    Trailing { at: u64 },
    /// There was no memory for the lists.
    NoMemory,
}

impl<T: Drop> From<AllocFailed<T>> for ManifestRefused {
    ghost from_gives = { λ _ why. why ≡ NoMemory };

    fn from(_: AllocFailed<T>) -> Self {
        ManifestRefused::NoMemory
    }
}
