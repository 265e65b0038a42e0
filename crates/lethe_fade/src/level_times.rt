//! How long an entry may stay in the levels down to one of them.
ghost use Rattle.std.specs.Prelude.{◌≡◌, ◌^◌, ◌<◌, ◌≤◌};
ghost use Rattle.lethe_fade.specs.LevelTimes.{level_deadline};

use lethe_base::Config;

/// The age by which an entry has to have left a level and those above it, counted from its `since` in the time of the clock. The last level has none.
pub fn cum(config: &Config, level: u64) -> u64
    requires { level < config.now.levels }
    ensures { result ≡ level_deadline config.now level }
{
    let threshold = u128::from(config.fields().threshold);
    let part = ratio_power(config, level + 1) - 1;
    let whole = ratio_power(config, config.fields().levels) - 1;
    (threshold * part / whole) as u64
}

/// The ratio to a power.
pub fn ratio_power(config: &Config, exponent: u64) -> u128
    requires { exponent ≤ config.now.levels }
    ensures power { result ≡ config.now.ratio ^ exponent }
    ensures least { 1 ≤ result }
    ensures greatest { result ≤ 2 ^ 24 }
{
    let fields = config.fields();
    u128::from(fields.ratio).pow(exponent as u32)
}
