//! The first of the expired files.
ghost use Rattle.std.specs.Prelude.{◌≡◌, ◌≤◌, ◌<◌, ◌+◌, length, filter, slice_get, option_map, IfNone};
ghost use Rattle.lethe_fade.specs.Expired.{expired_cmp, is_expired};
ghost use Rattle.lethe_fade.specs.Ranks.{sorted_by};
ghost use Rattle.lethe_orders.specs.Firsts.{first_expired, is_front_expired, lowest_expired};
ghost use Rattle.lethe_orders.specs.Standing.{StandFor};

use crate::Orders;
use crate::age::{Age, older};
use crate::levels::is_level_due;
use lethe_base::{Config, FileFacts, Shape};
use lethe_due::DueList;
use lethe_fade::{cum, is_passed};
use lethe_steps::Steps;
use std::sync::ledger::Ledger;

/// The number of the file whose merge is the first of those of the files that are expired at a time; None exactly where none is. A step is a look at the front of a due list, or
/// at the facts of a file.
pub fn first_expired<L: Ledger>(
    shape: &Shape,
    config: &Config,
    to: u64,
    orders: &Orders,
    steps: &mut Steps<L>,
) -> Option<u64>
    requires levels { length shape.now.levels ≡ config.now.levels + 1 }
    requires stand { StandFor shape.now orders.now }
    ensures first { result ≡ first_expired config.now to shape.now }
    ensures few { steps.new ≤ steps.old + config.now.levels + length (lowest_expired config.now to 0 shape.now.levels) }
    ensures none { IfNone result (steps.new ≤ steps.old + config.now.levels) }
{
    let levels = shape.levels.items();
    let lists = orders.lists();
    for level in 0..config.fields().levels {
        if is_level_due(lists, config, level, to, steps) {
            return oldest_file(levels[level as usize].items(), config, level, to, steps);
        }
    }
    None
}

/// Whether the first file of a level's due list is expired.
pub fn is_front_expired<L: Ledger>(
    list: &DueList,
    config: &Config,
    level: u64,
    to: u64,
    steps: &mut Steps<L>,
) -> bool
    requires { level < config.now.levels }
    ensures expired { result ≡ is_front_expired config.now to level list.now }
    ensures few { steps.new ≤ steps.old + 1 }
{
    match list.first(steps) {
        Some((_, oldest)) => is_passed(cum(config, level), to, Some(oldest)),
        None => false,
    }
}

/// The first of a level's expired files: that of the least time, of several the one of the most tombstones, of those the one of the least number.
fn oldest_file<L: Ledger>(
    files: &[FileFacts],
    config: &Config,
    level: u64,
    to: u64,
    steps: &mut Steps<L>,
) -> Option<u64>
    requires { level < config.now.levels }
    ensures first { result ≡ option_map (λ file. file.no) (slice_get (sorted_by expired_cmp (filter (is_expired config.now to level) files.now)) 0) }
    ensures few { steps.new ≡ steps.old + length files.now }
{
    let deadline = cum(config, level);
    let mut oldest = None;
    for file in files {
        steps.look();
        if is_passed(deadline, to, file.oldest) {
            let age = Age {
                oldest: file.oldest,
                tombs: file.tombs,
                no: file.no,
            };
            oldest = Some(older(oldest, age));
        }
    }
    let age = oldest?;
    Some(age.no)
}
