//! What the tests of stores share: disks in memory, what is put on them, what their objects hold, and what a crash leaves of them; and numbers that follow from a seed.
#![tactic(auto)]

mod dice;
mod disks;
mod held;

pub use dice::Dice;
pub use disks::{
    IMAGES, add, bytes_at, crashed, disk_of, image_of, names_of, objects_of, roomy_disk, take_away,
    take_calls,
};
pub use held::{Held, held_by};
