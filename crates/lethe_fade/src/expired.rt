//! The merges of expired files, which have an entry that should have left their level.
ghost use Rattle.std.specs.Prelude.{◌≡◌, ◌+◌, ◌<◌, ◌^◌, ℕ, length, find, filter, map, option_map};
ghost use Rattle.lethe_base.specs.declared.config.Fields.{Fields};
ghost use Rattle.lethe_fade.specs.LevelTimes.{level_deadline};
ghost use Rattle.lethe_fade.specs.Spans.{range_of};
ghost use Rattle.lethe_fade.specs.Ranks.{sorted_by};
ghost use Rattle.lethe_fade.specs.Candidates.{is_free, merge_named};
ghost use Rattle.lethe_fade.specs.Expired.{expired, expired_cmp, expired_merges, is_expired, is_passed};

use crate::level_times::cum;
use crate::merge::is_merge_free;
use crate::rank::{Age, older};
use crate::span::Span;
use crate::{Claim, Plan};
use lethe_base::{Config, FileFacts, Shape};

/// The first merge of an expired file that is free, lowest level first.
pub fn first_expired(shape: &Shape, config: &Config, clock: u64, claims: &[Claim]) -> Option<Plan>
    requires { length shape.now.levels ≡ config.now.levels + 1 }
    ensures { result ≡ option_map (λ c. c.plan) (find (is_free claims.now) (expired config.now clock shape.now)) }
{
    let levels = shape.levels.items();
    for level in 0..config.fields().levels {
        let place = level as usize;
        let plan = first_in_level(
            config,
            clock,
            level,
            levels[place].items(),
            levels[place + 1].items(),
            claims,
        );
        if plan.is_some() {
            return plan;
        }
    }
    None
}

/// The first merge of a level's expired files that is free.
fn first_in_level(
    config: &Config,
    clock: u64,
    level: u64,
    files: &[FileFacts],
    next: &[FileFacts],
    claims: &[Claim],
) -> Option<Plan>
    requires timed { level < config.now.levels }
    requires small { level < 2 ^ 63 }
    ensures { result ≡ option_map (λ c. c.plan) (find (is_free claims.now) (expired_merges config.now clock level files.now next.now)) }
{
    if level == 0 {
        let (first, others) = files.split_first()?;
        if is_merge_free(0, &Span::of_all(first, others), next, claims) {
            oldest_file(config, clock, 0, files, next, &[])
        } else {
            None
        }
    } else {
        oldest_file(config, clock, level, files, next, claims)
    }
}

/// The merge of the first of a level's expired files whose own merge is free.
fn oldest_file(
    config: &Config,
    clock: u64,
    level: u64,
    files: &[FileFacts],
    next: &[FileFacts],
    claims: &[Claim],
) -> Option<Plan>
    requires timed { level < config.now.levels }
    requires small { level < 2 ^ 63 }
    ensures { result ≡ option_map (λ c. c.plan) (find (is_free claims.now) (map (λ file. merge_named file.no level (range_of file) next.now) (sorted_by expired_cmp (filter (is_expired config.now clock level) files.now)))) }
{
    let deadline = cum(config, level);
    let mut oldest = None;
    for file in files {
        if is_passed(deadline, clock, file.oldest)
            && is_merge_free(level, &Span::of(file), next, claims)
        {
            let age = Age {
                oldest: file.oldest,
                tombs: file.tombs,
                no: file.no,
            };
            oldest = Some(older(oldest, age));
        }
    }
    let age = oldest?;
    Some(Plan {
        file: age.no,
        erase: None,
    })
}

/// Whether at a clock so much time is over since then. Without a time nothing is.
pub fn is_passed(deadline: u64, clock: u64, since: Option<u64>) -> bool
    ensures { (fields : Fields) (level : ℕ) → deadline ≡ level_deadline fields level → result ≡ is_passed fields clock level since }
{
    match since {
        Some(time) => time <= clock && deadline <= clock - time,
        None => false,
    }
}
