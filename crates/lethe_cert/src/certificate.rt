//! Certificates of deletion.
ghost use Rattle.std.specs.Prelude.{◌≡◌, IfOk};
ghost use Rattle.std.specs.String.{string_bytes};
ghost use Rattle.lethe_cert.specs.Text.{certificate_text};

use lethe_base::NoMemory;
use std::alloc::Global;

/// A certificate of deletion: at a tick's clock no object held a value erased at `before` or earlier.
#[derive(Debug, Clone, Copy, PartialEq, Eq, Drop)]
pub struct Certificate {
    /// Which of the store's certificates it is, counted from 1.
    pub number: u64,
    /// The time of the tick, in units of the store's clock.
    pub clock: u64,
    /// The time that lies a threshold below the clock, in the same units.
    pub before: u64,
    /// SHA-256 of the manifest object that counts then.
    pub digest: [u8; 32],
}

impl Certificate {
    /// `cert N before B sha256 H`: the number and `before` in decimal, and the digest in 64 lower-case hexadecimal digits.
    pub fn text(&self, alloc: Global) -> Result<String, NoMemory>
        ensures { IfOk result (λ text. string_bytes text ≡ certificate_text self.now) }
    {
        let number = self.number;
        let before = self.before;
        let digest = hex::encode(alloc, self.digest.as_slice())?;
        Ok(format!(in alloc; "cert {number} before {before} sha256 {digest}")?)
    }
}
