//! What the tests of merges and sweeps share.

use lethe_base::{Config, Fields, Shape};
use lethe_fade::{Claim, Plan, pick, pick_due};
use std::process::Abort;

pub fn config_of(rt: &impl Abort, fields: Fields) -> Config {
    Config::new(fields).expect(rt, "a configuration")
}

/// A file, and the place of an erase where it is swept.
pub type Named = Option<(u64, Option<u64>)>;

fn named_by(plan: Option<Plan>) -> Named {
    plan.map(|plan| (plan.file, plan.erase))
}

/// What `pick` and `pick_due` name at a clock, of a shape of levels 0 to 2.
pub fn picked(
    rt: &impl Abort,
    shape: &Shape,
    fields: Fields,
    claims: &[Claim],
    clock: u64,
) -> (Named, Named) {
    let config = config_of(rt, fields);
    assert!(rt; shape.levels.items().len() as u64 == config.fields().levels + 1);
    let picked = named_by(pick(shape, &config, clock, claims));
    let due = named_by(pick_due(shape, &config, clock));
    (picked, due)
}
