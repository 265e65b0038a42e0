//! The files of a level that have an oldest time, in the order in which they expire.
ghost use Rattle.std.specs.Prelude.{◌≡◌, ◌≤◌, ◌<◌, ◌+◌, [], false, length, OnOk, IfSome, All};
ghost use Rattle.std.specs.Bool.{OnFalse, OnTrue};
ghost use Rattle.lethe_due.specs.Due.{AreInOrder, IsFirst, IsWith, first_of, is_linked, without};

use crate::DueFile;
use crate::linking::{node_at, relink, seek};
use crate::node::Node;
use crate::stop::Stop;
use lethe_base::NoMemory;
use lethe_steps::Steps;
use slab::Slab;
use std::alloc::Global;
use std::marker::Model;
use std::sync::ledger::Ledger;

/// Files by their oldest time, then by number. Their nodes stand in a slab, and each names the next one by its index. A step is a
/// look at a node.
#[derive(Debug, Drop)]
pub struct DueList {
    nodes: Slab<Node>,
    first: Option<usize>,
}

impl Model for DueList {
    ghost use Rattle.std.specs.Prelude.{◌-◌};
    ghost use Rattle.slab.specs.Slab.{slab_len};
    ghost use Rattle.lethe_due.specs.Due.{Due};
    ghost use Rattle.lethe_due.specs.Linked.{AreLinked, files_from};

    ghost Value = { Due };

    ghost view = { λ d. record { files = files_from d.nodes d.first; spare = d.nodes.capacity - slab_len d.nodes } };

    ghost invariant = { λ d. AreLinked d.nodes d.first };
}

impl DueList {
    /// A list of no files, which has taken no memory yet.
    pub fn new(alloc: Global) -> DueList
        ensures { result ≡ record { files = []; spare = 0 } }
    {
        DueList {
            nodes: Slab::new(alloc),
            first: None,
        }
    }

    /// Takes memory for so many more files. The files and the memory that was taken before stay, whatever it answers.
    pub fn reserve(&mut self, more: usize) -> Result<(), NoMemory>
        ensures files { self.new.files ≡ self.old.files }
        ensures spare { OnOk result (more ≤ self.new.spare) }
        ensures kept { self.old.spare ≤ self.new.spare }
    {
        self.nodes.reserve(more)?;
        Ok(())
    }

    /// Links one more file. It takes no memory.
    pub fn link<L: Ledger>(&mut self, no: u64, oldest: u64, steps: &mut Steps<L>)
        requires room { 1 ≤ self.old.spare }
        requires other { is_linked no self.old.files ≡ false }
        ensures with { IsWith (record { no = no; oldest = oldest }) self.old.files self.new.files }
        ensures order { AreInOrder self.new.files }
        ensures spare { self.new.spare + 1 ≡ self.old.spare }
        ensures few { steps.new ≤ steps.old + length self.old.files + 1 }
    {
        let file = DueFile { no, oldest };
        let (behind, from) = seek(&self.nodes, self.first, Stop::Behind(file), steps);
        let key = self.nodes.insert_reserved(Node { file, next: from });
        self.first = relink(&mut self.nodes, self.first, behind, Some(key), steps);
    }

    /// Takes a file out. False exactly where its number isn't in the list. It takes no memory, and gives the file's back to the list.
    pub fn unlink<L: Ledger>(&mut self, no: u64, steps: &mut Steps<L>) -> bool
        ensures found { result ≡ is_linked no self.old.files }
        ensures others { self.new.files ≡ without no self.old.files }
        ensures spare { OnTrue result (self.new.spare ≡ self.old.spare + 1) }
        ensures none { OnFalse result (self.new ≡ self.old) }
        ensures order { AreInOrder self.new.files }
        ensures few { steps.new ≤ steps.old + length self.old.files + 1 }
    {
        let (behind, from) = seek(&self.nodes, self.first, Stop::Number(no), steps);
        let Some(key) = from else {
            return false;
        };
        let Some(node) = self.nodes.try_remove(key) else {
            return false;
        };
        self.first = relink(&mut self.nodes, self.first, behind, node.next, steps);
        true
    }

    /// The number and the time of the file of the least time, of several the least number; None exactly where there is none.
    pub fn first<L: Ledger>(&self, steps: &mut Steps<L>) -> Option<(u64, u64)>
        ensures first { result ≡ first_of self.now.files }
        ensures least { IfSome result (λ found. All (IsFirst found.0 found.1) self.now.files) }
        ensures few { steps.new ≤ steps.old + 1 }
    {
        match node_at(&self.nodes, self.first) {
            Some(node) => {
                steps.look();
                Some((node.file.no, node.file.oldest))
            }
            None => None,
        }
    }
}
