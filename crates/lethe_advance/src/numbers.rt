//! Numbers of objects and manifests.
ghost use Rattle.std.specs.Prelude.{◌≡◌, ◌+◌, ◌≤◌, ◌↔◌, IfSome, IsNone};
ghost use Rattle.lethe_base.specs.Limits.{max_place};

use lethe_base::MAX_PLACE;

/// The number behind so many, which are drawn from `next` on. None where it has run out: the last number is never drawn, so that there is always a next one.
pub fn number_behind(next: u64, drawn: u64) -> Option<u64>
    ensures none { IsNone result ↔ (max_place ≤ next + drawn) }
    ensures some { IfSome result (λ number. number ≡ next + drawn) }
{
    // A sum past 2^64 is past the last number too.
    let number = next.saturating_add(drawn);
    (number < MAX_PLACE).then_some(number)
}
