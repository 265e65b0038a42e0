//! The buffer itself.
ghost use Rattle.std.specs.Prelude.{◌≡◌, ◌≤◌, ◌<◌, ◌+◌, ◌-◌, ◌^◌, [], length, IfOk};
ghost use Rattle.std.specs.Option.{option_copied};
ghost use Rattle.lethe_base.specs.Entries.{IsAscending, entry_of};
ghost use Rattle.lethe_tree.specs.Tree.{entries_from};

use crate::growing::hang;
use crate::link::Link;
use crate::looking::{entry_at, index_at, index_of};
use crate::placing::{Spot, spot_of};
use lethe_base::{Entry, Key, NoMemory};
use lethe_mem::Buffer;
use lethe_steps::Steps;
use std::alloc::Global;
use std::marker::{Brand, Model};
use std::sync::ledger::{Blank, Ledger};

/// The entries in one vector in the order in which they came, and beside it the nodes of a balanced tree, which name each other by
/// index. An insert moves no entry, and hangs one node in.
#[derive(Debug, Drop)]
pub struct TreeBuffer {
    entries: Vec<Entry>,
    links: Vec<Link>,
    root: Option<usize>,
    last: Option<usize>,
    ghost ascending: { IsAscending (entries_from entries.items links.items root) },
}

impl Model for TreeBuffer {
    ghost use Rattle.std.specs.Prelude.{◌-◌, min, vec_len, vec_capacity};
    ghost use Rattle.lethe_mem.specs.Buffered.{Buffered};
    ghost use Rattle.lethe_tree.specs.Tree.{IsTree, entries_from};

    ghost Value = { Buffered };

    ghost view = { λ b. record { entries = entries_from b.entries.items b.links.items b.root; ascending = b.ascending; spare = min (vec_capacity b.entries - vec_len b.entries) (vec_capacity b.links - vec_len b.links) } };

    ghost invariant = { λ b. IsTree b.entries.items b.links.items b.root b.last };
}

impl TreeBuffer {
    /// A buffer of no entries, which has taken no memory yet.
    pub fn new(alloc: Global) -> TreeBuffer
        ensures entries { result.entries ≡ [] }
        ensures spare { result.spare ≡ 0 }
    {
        TreeBuffer {
            entries: Vec::new(alloc),
            links: Vec::new(alloc),
            root: None,
            last: None,
        }
    }

    /// The entry of a key, by few looks at nodes: a look is a step.
    pub fn look<L: Ledger>(&self, key: &Key, steps: &mut Steps<L>) -> Option<&Entry>
        ensures found { option_copied result ≡ entry_of key.now self.now.entries }
        ensures few { 2 ^ (steps.new - steps.old) ≤ (length self.now.entries + 1) ^ 2 }
    {
        match index_of(&self.links, &self.entries, self.root, key, steps) {
            Some(at) => entry_at(&self.entries, at),
            None => None,
        }
    }
}

/// The entry of a key, where the looks aren't counted.
fn find_from<'a, L: Ledger>(buffer: &'a TreeBuffer, key: &Key, blank: Blank) -> Option<&'a Entry>
    requires name { blank.name ≡ L.name }
    requires parts { blank.parts ≡ L.parts }
    requires shared { 0 < blank.parts }
    ensures { option_copied result ≡ entry_of key.now buffer.now.entries }
{
    let mut steps = Steps::<L>::begin(blank);
    buffer.look(key, &mut steps)
}

impl Buffer for TreeBuffer {
    ghost entries = { λ b. b.entries };

    ghost spare = { λ b. b.spare };

    ghost ascending = { λ b. b.ascending };

    fn reserve(&mut self, more: usize) -> Result<(), NoMemory> {
        self.entries.reserve(more)?;
        self.links.reserve(more)?;
        Ok(())
    }

    fn insert(&mut self, entry: Entry) {
        let spot = spot_of::<Brand>(
            &self.links,
            &self.entries,
            self.root,
            self.last,
            &entry.key,
            Blank::new(1),
        );
        match spot {
            Spot::Held(at) => self.entries[at] = entry,
            Spot::Behind => {
                self.last = Some(self.links.len());
                self.root = Some(hang(&mut self.links, &self.entries, self.root, None));
                self.entries.push(entry).unwrap();
            }
            Spot::Among => {
                self.root = Some(hang(&mut self.links, &self.entries, self.root, Some(&entry.key)));
                self.entries.push(entry).unwrap();
            }
        }
    }

    fn find(&self, key: &Key) -> Option<&Entry> {
        find_from::<Brand>(self, key, Blank::new(1))
    }

    fn at(&self, place: usize) -> Option<&Entry> {
        match index_at(&self.links, self.root, place) {
            Some(at) => entry_at(&self.entries, at),
            None => None,
        }
    }

    fn len(&self) -> usize {
        self.entries.len()
    }

    fn is_empty(&self) -> bool {
        self.entries.is_empty()
    }

    fn copy(&self) -> Result<TreeBuffer, NoMemory> {
        let alloc = *self.entries.allocator();
        Ok(TreeBuffer {
            entries: copy_entries(&self.entries, alloc)?,
            links: copy_links(&self.links, alloc)?,
            root: self.root,
            last: self.last,
        })
    }
}

/// The same entries, in memory of their own.
fn copy_entries(entries: &[Entry], alloc: Global) -> Result<Vec<Entry>, NoMemory>
    ensures { IfOk result (λ copy. copy.items ≡ entries.now) }
{
    let mut copy = Vec::with_capacity(alloc, entries.len())?;
    for entry in entries {
        copy.push(entry.copy()?)?;
    }
    Ok(copy)
}

/// The same nodes, in memory of their own.
fn copy_links(links: &[Link], alloc: Global) -> Result<Vec<Link>, NoMemory>
    ensures { IfOk result (λ copy. copy.items ≡ links.now) }
{
    let mut copy = Vec::with_capacity(alloc, links.len())?;
    for link in links {
        copy.push(*link)?;
    }
    Ok(copy)
}
