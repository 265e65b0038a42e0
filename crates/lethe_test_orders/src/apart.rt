//! Whether files have other numbers, as the orders of a shape require.
ghost use Rattle.std.specs.Prelude.{◌≡◌, ◌≢◌, All, IsTrue, false};
ghost use Rattle.lethe_orders.specs.Standing.{HaveOtherNumbers};

use lethe_base::{FileFacts, List};

/// Whether no two files of a level have one number.
pub fn are_apart(levels: &[List<FileFacts>]) -> bool
    ensures { IsTrue result → All HaveOtherNumbers levels.now }
{
    for level in levels {
        if !have_other_numbers(level.items()) {
            return false;
        }
    }
    true
}

fn have_other_numbers(files: &[FileFacts]) -> bool
    ensures { IsTrue result → HaveOtherNumbers files.now }
{
    for place in 0..files.len() {
        if is_in(files[place].no, &files[..place]) {
            return false;
        }
    }
    true
}

fn is_in(no: u64, files: &[FileFacts]) -> bool
    ensures { result ≡ false → All (λ file. file.no ≢ no) files.now }
{
    for file in files {
        if file.no == no {
            return true;
        }
    }
    false
}
