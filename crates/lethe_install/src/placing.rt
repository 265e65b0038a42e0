//! Where a manifest cites the files that a job made.
ghost use Rattle.std.specs.Prelude.{◌≡◌, IfOk};
ghost use Rattle.lethe_install.specs.Placed.{is_behind, with_made};

use lethe_base::NoMemory;
use lethe_manifest::Cited;
use std::alloc::Global;

/// The cited files without those that go, and with others in a level: these stand before the deeper levels, and before the files of their level whose
/// numbers are those `above`.
pub fn with_made(
    alloc: Global,
    old: &[Cited],
    made: Vec<Cited>,
    level: u64,
    gone: &[u64],
    above: &[u64],
) -> Result<Vec<Cited>, NoMemory>
    ensures { IfOk result (λ files. files.items ≡ with_made level gone.now above.now made.items old.now) }
{
    let mut files = Vec::new(alloc);
    let mut behind = Vec::new(alloc);
    for file in old {
        if gone.contains(&file.no) {
            continue;
        }
        if is_behind(file, level, above) {
            behind.push(*file)?;
        } else {
            files.push(*file)?;
        }
    }
    let mut made = made;
    files.append(&mut made)?;
    files.append(&mut behind)?;
    Ok(files)
}

fn is_behind(file: &Cited, level: u64, above: &[u64]) -> bool
    ensures { result ≡ is_behind level above.now file.now }
{
    level < file.level || (file.level == level && above.contains(&file.no))
}
