//! The due lists of some levels.
ghost use Rattle.std.specs.Prelude.{◌≡◌, ◌≤◌, ◌<◌, ◌+◌, ◌&&◌, length, map, All, IfOk, OnOk, slice_get, ℕ, Some, false};
ghost use Rattle.std.specs.Bool.{OnFalse};
ghost use Rattle.lethe_due.specs.Due.{Due};
ghost use Rattle.lethe_orders.specs.Standing.{AreOrdersOf, HaveOtherNumbers};
ghost use Rattle.lethe_orders.specs.Changes.{ChangesAt, HaveRoom, IsLinked, IsUnlinked, KeepFiles, are_linked_at, count_at, due_at};
ghost use Rattle.lethe_orders.specs.Firsts.{is_front_expired};

use crate::building::list_of;
use crate::expired::is_front_expired;
use lethe_base::{Config, FileFacts, List, NoMemory};
use lethe_due::DueList;
use lethe_steps::Steps;
use std::alloc::Global;
use std::sync::ledger::{Blank, Ledger};

/// The due lists of the first so many levels.
pub fn lists_of<L: Ledger>(
    alloc: Global,
    levels: &[List<FileFacts>],
    count: usize,
    blank: Blank,
) -> Result<Vec<DueList>, NoMemory>
    requires name { blank.name ≡ L.name }
    requires parts { blank.parts ≡ L.parts }
    requires shared { 0 < blank.parts }
    requires within { count ≤ length levels.now }
    requires apart { All HaveOtherNumbers levels.now }
    ensures count { IfOk result (λ lists. length lists.items ≡ count) }
    ensures orders { IfOk result (λ lists. AreOrdersOf levels.now lists.items) }
{
    let mut steps = Steps::<L>::begin(blank);
    let mut lists = Vec::new(alloc);
    for level in 0..count {
        let list = list_of(alloc, levels[level].items(), &mut steps)?;
        lists.push(list)?;
    }
    Ok(lists)
}

/// Takes memory for so many more files in each list.
pub fn reserve_each(lists: &mut Vec<DueList>, files: usize) -> Result<(), NoMemory>
    ensures room { OnOk result (HaveRoom files lists.new.items) }
    ensures kept { KeepFiles lists.old.items lists.new.items }
{
    for place in 0..lists.len() {
        let list = &mut lists[place];
        list.reserve(files)?;
    }
    Ok(())
}

/// Links a file in the list of a level, where there is one.
pub fn link_at<L: Ledger>(
    lists: &mut Vec<DueList>,
    level: usize,
    no: u64,
    oldest: u64,
    steps: &mut Steps<L>,
)
    requires room { (due : Due) → slice_get lists.old.items level ≡ Some due → 1 ≤ due.spare }
    requires other { are_linked_at level no lists.old.items ≡ false }
    ensures linked { ChangesAt level (IsLinked no oldest) lists.old.items lists.new.items }
    ensures few { steps.new ≤ steps.old + count_at level lists.old.items + 1 }
{
    if level < lists.len() {
        let list = &mut lists[level];
        list.link(no, oldest, steps);
    }
}

/// Takes the file of a number out of the list of a level, where there is one.
pub fn unlink_at<L: Ledger>(
    lists: &mut Vec<DueList>,
    level: usize,
    no: u64,
    steps: &mut Steps<L>,
) -> bool
    ensures found { result ≡ are_linked_at level no lists.old.items }
    ensures unlinked { ChangesAt level (IsUnlinked no) lists.old.items lists.new.items }
    ensures none { OnFalse result (lists.new.items ≡ lists.old.items) }
    ensures few { steps.new ≤ steps.old + count_at level lists.old.items + 1 }
{
    if level < lists.len() {
        let list = &mut lists[level];
        list.unlink(no, steps)
    } else {
        false
    }
}

/// Whether the first file of a level's list is expired, where there is one.
pub fn is_level_due<L: Ledger>(
    lists: &[DueList],
    config: &Config,
    level: u64,
    to: u64,
    steps: &mut Steps<L>,
) -> bool
    requires { level < config.now.levels }
    ensures due { result ≡ is_front_expired config.now to level (due_at level lists.now) }
    ensures few { steps.new ≤ steps.old + 1 }
{
    match lists.get(level as usize) {
        Some(list) => is_front_expired(list, config, level, to, steps),
        None => false,
    }
}
