//! The shape of a store.
ghost use Rattle.std.specs.Prelude.{◌≡◌, ◌+◌, ◌<◌, ◌^◌, map, length, IfOk};
ghost use Rattle.lethe_job.specs.Shapes.{facts_at, shape_of};
ghost use Rattle.lethe_job.specs.Tasks.{plain_file};

use crate::filed::Filed;
use lethe_base::{FileFacts, List, NoMemory, Pending, Shape};
use lethe_disk::Disk;
use std::alloc::Global;

/// The shape of files of the levels from 0 to the deepest, with these pending erases.
pub fn shape_of<D: Disk>(
    alloc: Global,
    files: &[Filed<D>],
    deepest: u64,
    erases: &[Pending],
) -> Result<Shape, NoMemory>
    requires { deepest < 2 ^ 32 }
    ensures shape { IfOk result (λ shape. shape ≡ shape_of deepest (map plain_file files.now) erases.now) }
    ensures levels { IfOk result (λ shape. length shape.levels ≡ deepest + 1) }
{
    let mut levels = Vec::new(alloc);
    for level in 0..deepest + 1 {
        levels.push(facts_at(alloc, files, level)?)?;
    }
    let erases = Vec::from_slice(alloc, erases)?;
    Ok(Shape {
        levels: List::of(levels),
        erases: List::of(erases),
    })
}

/// The facts of the files of a level, in their order.
fn facts_at<D: Disk>(
    alloc: Global,
    files: &[Filed<D>],
    level: u64,
) -> Result<List<FileFacts>, NoMemory>
    ensures { IfOk result (λ facts. facts ≡ facts_at (map plain_file files.now) level) }
{
    let mut facts = Vec::new(alloc);
    for file in files {
        if file.level == level {
            facts.push(file.file.file().facts(level, file.swept)?)?;
        }
    }
    Ok(List::of(facts))
}
