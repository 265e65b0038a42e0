//! The object of a segment that has no record.
ghost use Rattle.std.specs.Prelude.{◌≡◌, IfOk};
ghost use Rattle.lethe_advance.specs.Segment.{empty_segment};

use lethe_base::{Kind, List, Name, NoMemory};
use lethe_commit::Object;
use lethe_segment::new_segment;
use std::alloc::Global;

/// A segment of that number without a record.
pub fn empty_segment(alloc: Global, number: u64) -> Result<Object, NoMemory>
    ensures { IfOk result (λ made. made ≡ empty_segment number) }
{
    let bytes = new_segment(number).to_vec(alloc)?;
    Ok(Object {
        name: Name {
            kind: Kind::Segment,
            no: number,
        },
        bytes: List::of(bytes),
    })
}
