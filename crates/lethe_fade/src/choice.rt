//! The choice of the next job.
ghost use Rattle.std.specs.Prelude.{◌≡◌, ◌+◌, ◌<◌, ◌^◌, length, find, option_map};
ghost use Rattle.lethe_fade.specs.Ranks.{lesser_of, rank_cmp};
ghost use Rattle.lethe_fade.specs.Candidates.{is_free};
ghost use Rattle.lethe_fade.specs.Choice.{whole_merges, file_merges, level_merges, candidates, choice};

use crate::claim::is_free;
use crate::expired::first_expired;
use crate::merge::{is_merge_free, merge_of};
use crate::rank::{Rank, compare_ranks};
use crate::saturation::is_saturated;
use crate::span::Span;
use crate::sweeps::first_sweep;
use crate::{Claim, Plan};
use lethe_base::{Config, FileFacts, Pick, Shape};
use std::cmp::Ordering;

/// The first job whose claim meets none of those given: a merge of a file that is expired at the clock, else a sweep of the first pending erase, and else a merge of a
/// saturated level. None where there is no such job.
pub fn pick(shape: &Shape, config: &Config, clock: u64, claims: &[Claim]) -> Option<Plan>
    requires { length shape.now.levels ≡ config.now.levels + 1 }
    ensures { result ≡ choice config.now shape.now clock claims.now }
{
    let expired = first_expired(shape, config, clock, claims);
    if expired.is_some() {
        return expired;
    }
    let sweep = first_sweep(shape, claims);
    if sweep.is_some() {
        return sweep;
    }
    first_saturated(shape, config, claims)
}

/// The first merge of a saturated level that is free, lowest level first.
fn first_saturated(shape: &Shape, config: &Config, claims: &[Claim]) -> Option<Plan>
    requires { length shape.now.levels ≡ config.now.levels + 1 }
    ensures { result ≡ option_map (λ c. c.plan) (find (is_free claims.now) (candidates config.now shape.now)) }
{
    let levels = shape.levels.items();
    for level in 0..config.fields().levels {
        let place = level as usize;
        let plan = first_free(
            config,
            level,
            levels[place].items(),
            levels[place + 1].items(),
            claims,
        );
        if plan.is_some() {
            return plan;
        }
    }
    None
}

/// The first merge of a level that is free, where the level is saturated.
fn first_free(
    config: &Config,
    level: u64,
    files: &[FileFacts],
    next: &[FileFacts],
    claims: &[Claim],
) -> Option<Plan>
    requires { level < 2 ^ 63 }
    ensures { result ≡ option_map (λ c. c.plan) (find (is_free claims.now) (level_merges config.now level files.now next.now)) }
{
    if !is_saturated(config, level, files) {
        None
    } else if level == 0 {
        whole_level(files, next, claims)
    } else {
        best_file(config.fields().pick, level, files, next, claims)
    }
}

/// The merge of all files of level 0, where it is free.
fn whole_level(files: &[FileFacts], next: &[FileFacts], claims: &[Claim]) -> Option<Plan>
    ensures { result ≡ option_map (λ c. c.plan) (find (is_free claims.now) (whole_merges files.now next.now)) }
{
    let (first, others) = files.split_first()?;
    let mut least = first.no;
    for file in others {
        least = least.min(file.no);
    }
    is_merge_free(0, &Span::of_all(first, others), next, claims).then_some(Plan {
        file: least,
        erase: None,
    })
}

/// The merge of the first file in an order whose merge is free.
fn best_file(
    order: Pick,
    level: u64,
    files: &[FileFacts],
    next: &[FileFacts],
    claims: &[Claim],
) -> Option<Plan>
    requires { level < 2 ^ 63 }
    ensures { result ≡ option_map (λ c. c.plan) (find (is_free claims.now) (file_merges order level files.now next.now)) }
{
    let mut best = None;
    for file in files {
        let merge = merge_of(&Span::of(file), next);
        if is_free(level, level + 1, &merge.keys, claims) {
            let rank = Rank {
                below: merge.below,
                tombs: file.tombs,
                oldest: file.oldest,
                no: file.no,
            };
            best = Some(better(order, best, rank));
        }
    }
    let rank = best?;
    Some(Plan {
        file: rank.no,
        erase: None,
    })
}

/// The lesser of two ranks, the one before where they are tied.
fn better(order: Pick, best: Option<Rank>, rank: Rank) -> Rank
    ensures { result ≡ lesser_of (rank_cmp order) best rank }
{
    match best {
        Some(before) if compare_ranks(order, &before, &rank) != Ordering::Greater => before,
        _ => rank,
    }
}
