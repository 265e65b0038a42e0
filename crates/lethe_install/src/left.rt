//! Which objects go, and which are left.
ghost use Rattle.std.specs.Prelude.{◌≡◌, IfOk};
ghost use Rattle.lethe_install.specs.Left.{is_among, needed_of, unneeded_of};
ghost use Rattle.lethe_pins.specs.Held.{is_named};

use lethe_base::{Name, NoMemory};
use lethe_pins::Pins;
use std::alloc::Global;

/// Names of objects that aren't cited any more.
#[derive(Debug, Drop)]
pub struct Parted {
    /// Those that go.
    pub gone: Vec<Name>,
    /// Those that a held pin names.
    pub left: Vec<Name>,
}

/// Parts names by whether a held pin names them.
pub fn part(alloc: Global, names: Vec<Name>, pins: &Pins) -> Result<Parted, NoMemory>
    ensures gone { IfOk result (λ parted. parted.gone.items ≡ unneeded_of (is_named pins.now.pins) names.items) }
    ensures left { IfOk result (λ parted. parted.left.items ≡ needed_of (is_named pins.now.pins) names.items) }
{
    let mut gone = Vec::new(alloc);
    let mut left = Vec::new(alloc);
    for name in &names {
        if pins.holds(*name) {
            left.push(*name)?;
        } else {
            gone.push(*name)?;
        }
    }
    Ok(Parted { gone, left })
}

/// Leaves out of the names those that are among others.
pub fn leave_out(names: &mut Vec<Name>, others: &[Name])
    ensures { names.new.items ≡ unneeded_of (is_among others.now) names.old.items }
{
    names.retain(|name| !others.contains(name));
}
