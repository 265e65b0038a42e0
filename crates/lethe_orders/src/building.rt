//! Due lists of the files of a level.
ghost use Rattle.std.specs.Prelude.{◌≡◌, ◌≢◌, ◌≤◌, ◌↔◌, [], length, AllPairs, Contains, IfOk, IsPermutation};
ghost use Rattle.lethe_due.specs.Due.{AreInOrder};
ghost use Rattle.lethe_due.specs.declared.due_file.DueFile as declared;
ghost use Rattle.lethe_orders.specs.Standing.{HaveOtherNumbers, IsOrderOf, timed};

use lethe_base::{FileFacts, NoMemory};
use lethe_due::{DueFile, DueList};
use lethe_steps::Steps;
use std::alloc::Global;
use std::cmp::Ordering;
use std::sync::ledger::Ledger;

/// The due list of a level's files. Those that expire last are linked first, so that each is linked at the front.
pub fn list_of<L: Ledger>(
    alloc: Global,
    files: &[FileFacts],
    steps: &mut Steps<L>,
) -> Result<DueList, NoMemory>
    requires { HaveOtherNumbers files.now }
    ensures { IfOk result (IsOrderOf files.now) }
{
    let mut order = timed_files(alloc, files)?;
    sort_last_first(&mut order);
    let mut list = DueList::new(alloc);
    list.reserve(order.len())?;
    link_all(&mut list, &order, steps);
    Ok(list)
}

/// The files that have an oldest time, in the order in which they stand.
fn timed_files(alloc: Global, files: &[FileFacts]) -> Result<Vec<DueFile>, NoMemory>
    ensures { IfOk result (λ order. order.items ≡ timed files.now) }
{
    let mut order = Vec::new(alloc);
    for file in files {
        if let Some(oldest) = file.oldest {
            order.push(DueFile {
                no: file.no,
                oldest,
            })?;
        }
    }
    Ok(order)
}

/// Puts files into an order in which those that expire last come first.
fn sort_last_first(order: &mut Vec<DueFile>)
    ensures { IsPermutation order.old.items order.new.items }
{
    order.sort_unstable_by(|file, other| compare_dues(other, file));
}

fn compare_dues(file: &DueFile, other: &DueFile) -> Ordering {
    file.oldest.cmp(&other.oldest).then(file.no.cmp(&other.no))
}

/// Links files into an empty list, one after the other.
fn link_all<L: Ledger>(list: &mut DueList, order: &[DueFile], steps: &mut Steps<L>)
    requires empty { list.old.files ≡ [] }
    requires room { length order.now ≤ list.old.spare }
    requires apart { AllPairs (λ file other. file.no ≢ other.no) order.now }
    ensures same { (file : declared.DueFile) → Contains list.new.files file ↔ Contains order.now file }
    ensures order { AreInOrder list.new.files }
{
    for file in order {
        list.link(file.no, file.oldest, steps);
    }
}
