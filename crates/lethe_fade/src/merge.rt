//! What a merge of some files takes with it from the next level.
ghost use Rattle.std.specs.Prelude.{◌≡◌, ◌<◌, ◌^◌, not};
ghost use Rattle.std.specs.List.{list_any};
ghost use Rattle.lethe_fade.specs.Saturation.{entries_in};
ghost use Rattle.lethe_fade.specs.Spans.{overlapping, hull};
ghost use Rattle.lethe_fade.specs.Claims.{meets, merge_claim};

use crate::Claim;
use crate::claim::is_free;
use crate::span::Span;
use lethe_base::FileFacts;

/// A merge of files of a level with those of the next level that they overlap.
#[derive(Drop)]
pub struct Merge<'a> {
    /// The keys of all its inputs.
    pub keys: Span<'a>,
    /// How many entries the files of the next level have that it takes.
    pub below: u128,
}

/// The merge of files that have these keys.
pub fn merge_of<'a>(sources: &Span<'a>, next: &'a [FileFacts]) -> Merge<'a>
    ensures keys { result.keys ≡ hull sources.now (overlapping sources.now next.now) }
    ensures below { result.below ≡ entries_in (overlapping sources.now next.now) }
{
    let mut keys = sources.copy();
    let mut below = 0u128;
    for file in next {
        let other = Span::of(file);
        if sources.overlaps(&other) {
            keys = keys.join(&other);
            below += u128::from(file.entries);
        }
    }
    Merge { keys, below }
}

/// Whether the merge of files that have these keys meets none of the claims. Where there are none it looks at no file.
pub fn is_merge_free<'a>(
    level: u64,
    sources: &Span<'a>,
    next: &'a [FileFacts],
    claims: &[Claim],
) -> bool
    requires { level < 2 ^ 63 }
    ensures { result ≡ not (list_any (meets (merge_claim level sources.now next.now)) claims.now) }
{
    claims.is_empty() || is_free(level, level + 1, &merge_of(sources, next).keys, claims)
}
