//! When a level has to give files to the next one.
ghost use Rattle.std.specs.Prelude.{◌≡◌};
ghost use Rattle.lethe_fade.specs.Saturation.{entries_in, is_saturated};

use crate::level_times::ratio_power;
use lethe_base::{Config, FileFacts};

/// Whether a level of these files is saturated.
pub fn is_saturated(config: &Config, level: u64, files: &[FileFacts]) -> bool
    ensures { result ≡ is_saturated config.now level files.now }
{
    let fields = config.fields();
    if level == 0 {
        fields.ratio <= files.len() as u64
    } else if level < fields.levels {
        u128::from(fields.buffer) * ratio_power(config, level + 1) < entries_in(files)
    } else {
        false
    }
}

/// How many entries the files have together.
pub fn entries_in(files: &[FileFacts]) -> u128
    ensures { result ≡ entries_in files.now }
{
    let mut entries = 0u128;
    for file in files {
        entries += u128::from(file.entries);
    }
    entries
}
