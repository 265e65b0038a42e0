//! The sweeps of the first pending erase, by which it is applied to the files that were there before it.
ghost use Rattle.std.specs.Prelude.{◌≡◌, find, option_map};
ghost use Rattle.lethe_fade.specs.Candidates.{is_free};
ghost use Rattle.lethe_fade.specs.Sweeps.{sweeps, sweeps_from, sweeps_in};

use crate::claim::is_free;
use crate::rank::{Age, older};
use crate::span::Span;
use crate::{Claim, Plan};
use lethe_base::{FileFacts, List, Shape};

/// The first sweep of the first pending erase that is free, lowest level first. None where no erase is pending.
///
/// It takes no memory, and its time grows as the number of files.
pub fn first_sweep(shape: &Shape, claims: &[Claim]) -> Option<Plan>
    ensures { result ≡ option_map (λ c. c.plan) (find (is_free claims.now) (sweeps shape.now)) }
{
    let erase = shape.erases.items().first()?;
    first_sweep_of(erase.seq, shape.levels.items(), claims)
}

/// The first sweep of the erase of a place that is free, lowest level first.
fn first_sweep_of(place: u64, levels: &[List<FileFacts>], claims: &[Claim]) -> Option<Plan>
    ensures { result ≡ option_map (λ c. c.plan) (find (is_free claims.now) (sweeps_from place 0 levels.now)) }
{
    for (level, files) in levels.iter().enumerate() {
        let plan = oldest_unswept(place, level as u64, files.items(), claims);
        if plan.is_some() {
            return plan;
        }
    }
    None
}

/// The sweep of the first of a level's unswept files whose sweep is free.
fn oldest_unswept(place: u64, level: u64, files: &[FileFacts], claims: &[Claim]) -> Option<Plan>
    ensures { result ≡ option_map (λ c. c.plan) (find (is_free claims.now) (sweeps_in place level files.now)) }
{
    let mut oldest = None;
    for file in files {
        if file.swept < place && is_free(level, level, &Span::of(file), claims) {
            let age = Age {
                oldest: file.oldest,
                tombs: file.tombs,
                no: file.no,
            };
            oldest = Some(older(oldest, age));
        }
    }
    let age = oldest?;
    Some(Plan {
        file: age.no,
        erase: Some(place),
    })
}
