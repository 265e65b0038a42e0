//! The hash of a key, and the places of its bits.
ghost use Rattle.std.specs.Prelude.{◌≡◌, ◌+◌, ◌*◌, ◌<◌};
ghost use Rattle.lethe_tile.specs.Filters.{hash_of, start_of, step_of};

use lethe_base::Key;

/// How many bits a key has in a filter.
pub const PROBES: u64 = 6;

/// The hash of Fowler, Noll and Vo with 64 bits, the form 1a.
pub fn hash_key(key: &Key) -> u64
    ensures { result ≡ hash_of key.now }
{
    let mut hash: u64 = 14_695_981_039_346_656_037;
    for byte in key.bytes() {
        hash = (hash ^ u64::from(*byte)).wrapping_mul(1_099_511_628_211);
    }
    hash
}

/// The place of a bit of a key with this hash, in a filter that has no end.
pub fn place(hash: u64, probe: u64) -> u64
    requires { probe < PROBES }
    ensures { result ≡ start_of hash + probe * step_of hash }
{
    hash % (1 << 32) + probe * (hash >> 32 | 1)
}
