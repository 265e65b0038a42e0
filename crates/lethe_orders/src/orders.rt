//! The orders of a store's levels.
ghost use Rattle.std.specs.Prelude.{◌≡◌, ◌≤◌, ◌<◌, ◌+◌, ℕ, false, length, map, All, IfOk, OnOk, Some, Option, slice_get};
ghost use Rattle.std.specs.Bool.{OnFalse};
ghost use Rattle.std.specs.Option.{is_some};
ghost use Rattle.lethe_base.specs.declared.shape.Shape as shapes;
ghost use Rattle.lethe_due.specs.Due.{Due, is_linked};
ghost use Rattle.lethe_orders.specs.Standing.{HaveOtherNumbers, StandFor};
ghost use Rattle.lethe_orders.specs.Changes.{ChangesAt, HaveRoom, IsFileLinked, IsUnlinked, IsWithFile, IsWithoutFile, KeepFiles, are_linked_at, count_at};
ghost use Rattle.lethe_orders.specs.Firsts.{first_expired};

use crate::levels::{is_level_due, link_at, lists_of, reserve_each, unlink_at};
use lethe_base::{Config, FileFacts, NoMemory, Shape};
use lethe_due::DueList;
use lethe_steps::Steps;
use std::alloc::Global;
use std::marker::{Brand, Model};
use std::sync::ledger::{Blank, Ledger};

/// A due list for each level above the last. Contracts see the values of the lists, that of level 0 first.
#[derive(Debug, Drop)]
pub struct Orders {
    lists: Vec<DueList>,
}

impl Model for Orders {
    ghost use Rattle.std.specs.Prelude.{List};
    ghost use Rattle.lethe_due.specs.Due.{Due};

    ghost Value = { List Due };

    ghost view = { λ o. o.lists.items };
}

impl Orders {
    /// The orders of a shape's files. A level is sorted once.
    pub fn of(alloc: Global, shape: &Shape, config: &Config) -> Result<Orders, NoMemory>
        requires levels { length shape.now.levels ≡ config.now.levels + 1 }
        requires apart { All HaveOtherNumbers shape.now.levels }
        ensures { IfOk result (λ orders. StandFor shape.now orders) }
    {
        let lists = lists_of::<Brand>(
            alloc,
            shape.levels.items(),
            config.fields().levels as usize,
            Blank::new(1),
        )?;
        Ok(Orders { lists })
    }

    /// Takes memory for so many more files in each level. The lists stay, whatever it answers.
    pub fn reserve(&mut self, files: usize) -> Result<(), NoMemory>
        ensures room { OnOk result (HaveRoom files self.new) }
        ensures kept { KeepFiles self.old self.new }
        ensures stand { (shape : shapes.Shape) → StandFor shape self.old → StandFor shape self.new }
    {
        reserve_each(&mut self.lists, files)
    }

    /// Links a file of a level, where it has an oldest time. The last level has no list. It takes no memory.
    pub fn link<L: Ledger>(&mut self, level: u64, file: &FileFacts, steps: &mut Steps<L>)
        requires room { (due : Due) → slice_get self.old level ≡ Some due → 1 ≤ due.spare }
        requires other { are_linked_at level file.now.no self.old ≡ false }
        ensures linked { ChangesAt level (IsFileLinked file.now) self.old self.new }
        ensures stand { (shape after : shapes.Shape) → StandFor shape self.old → ChangesAt level (IsWithFile file.now) shape.levels after.levels → StandFor after self.new }
        ensures few { steps.new ≤ steps.old + count_at level self.old + 1 }
    {
        if let Some(oldest) = file.oldest {
            link_at(&mut self.lists, level as usize, file.no, oldest, steps);
        }
    }

    /// Takes the file of a number out of a level's list. False exactly where it isn't linked there. It takes no memory, and the level can link one file more.
    pub fn unlink<L: Ledger>(&mut self, level: u64, no: u64, steps: &mut Steps<L>) -> bool
        ensures found { result ≡ are_linked_at level no self.old }
        ensures unlinked { ChangesAt level (IsUnlinked no) self.old self.new }
        ensures none { OnFalse result (self.new ≡ self.old) }
        ensures stand { (shape after : shapes.Shape) → StandFor shape self.old → ChangesAt level (IsWithoutFile no) shape.levels after.levels → StandFor after self.new }
        ensures few { steps.new ≤ steps.old + count_at level self.old + 1 }
    {
        unlink_at(&mut self.lists, level as usize, no, steps)
    }

    /// Whether a file is expired at a time: it looks at the front of each level's list, and at no file.
    pub fn is_due<L: Ledger>(&self, config: &Config, to: u64, steps: &mut Steps<L>) -> bool
        ensures due { (shape : shapes.Shape) → length shape.levels ≡ config.now.levels + 1 → StandFor shape self.now → result ≡ is_some (first_expired config.now to shape) }
        ensures few { steps.new ≤ steps.old + config.now.levels }
    {
        let lists = self.lists();
        for level in 0..config.fields().levels {
            if is_level_due(lists, config, level, to, steps) {
                return true;
            }
        }
        false
    }

    /// The lists.
    pub(crate) fn lists(&self) -> &[DueList]
        ensures { result.now ≡ self.now }
    {
        &self.lists
    }
}
