//! What a time makes due.
ghost use Rattle.std.specs.Prelude.{◌≡◌, ◌+◌, length};
ghost use Rattle.lethe_fade.specs.Due.{due};

use crate::Plan;
use crate::expired::{first_expired, is_passed};
use crate::sweeps::first_sweep;
use lethe_base::{Config, Shape};

/// The job that is due at a time, whatever claims stand: the first merge of a file that is expired then, lowest level first. Where there is none, and the threshold has passed
/// since the first pending erase, the first sweep of that erase, lowest level first. Else none.
///
/// It takes no memory, and its time grows as the number of files.
pub fn pick_due(shape: &Shape, config: &Config, to: u64) -> Option<Plan>
    requires { length shape.now.levels ≡ config.now.levels + 1 }
    ensures { result ≡ due config.now shape.now to }
{
    let expired = first_expired(shape, config, to, &[]);
    if expired.is_some() {
        return expired;
    }
    let erase = shape.erases.items().first()?;
    if is_passed(config.fields().threshold, to, Some(erase.time)) {
        first_sweep(shape, &[])
    } else {
        None
    }
}
