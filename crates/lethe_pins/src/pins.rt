//! The pins that are held, in the order of their limits.
ghost use Rattle.std.specs.Prelude.{◌≡◌, ◌+◌, ◌↔◌, ◌⊎◌, [], None, length, filter, not, IsTrue, IfOk, IfErr, OnErr, IfSome, All};
ghost use Rattle.std.specs.Bool.{OnFalse};
ghost use Rattle.std.specs.Result.{IsErrOf};
ghost use Rattle.lethe_base.specs.Limits.{max_place};
ghost use Rattle.lethe_base.specs.declared.refused.Refused.TheVariants as refused;
ghost use Rattle.lethe_pins.specs.Held.{Held, AreHeld, Ascend, IsFirst, first_limit_of, is_held, is_named, placed, without};

use crate::linking::{node_at, relink, seek};
use crate::node::Node;
use crate::stop::Stop;
use crate::{HeldPin, Pin};
use lethe_base::{List, MAX_PLACE, Name, NoMemory, Refused};
use slab::Slab;
use std::alloc::Global;
use std::marker::Model;

/// The pins that are held, by limit, then by number, and how many were made. Their nodes stand in a slab, and each names the next one
/// by its index.
#[derive(Debug, Drop)]
pub struct Pins {
    nodes: Slab<Node>,
    first: Option<usize>,
    made: u64,
}

impl Model for Pins {
    ghost use Rattle.lethe_pins.specs.Held.{Held};
    ghost use Rattle.lethe_pins.specs.Linked.{AreLinked, pins_from};

    ghost Value = { Held };

    ghost view = { λ p. record { pins = pins_from p.nodes p.first; made = p.made } };

    ghost invariant = { λ p. AreLinked p.nodes p.first p.made };
}

impl Pins {
    /// None is held, and none was made. It takes no memory.
    pub fn new(alloc: Global) -> Pins
        ensures { result ≡ record { pins = []; made = 0 } }
    {
        Pins {
            nodes: Slab::new(alloc),
            first: None,
            made: 0,
        }
    }

    /// Makes a pin that keeps these names, and gives what lets it go again. Refused: `Exhausted` exactly where as many were made as there are
    /// numbers, else `NoMemory`. A refusal leaves all as before.
    pub fn pin(&mut self, names: Vec<Name>, limit: u64) -> Result<HeldPin, Refused>
        requires { Ascend names.items }
        ensures made { IfOk result (λ pin. (pin.number ≡ self.old.made + 1)
            × (self.new ≡ record { pins = placed (record { number = pin.number; names = names.items; limit = pin.limit }) self.old.pins; made = pin.number })) }
        ensures limit { IfOk result (λ pin. pin.limit ≡ limit) }
        ensures exhausted { IsErrOf result (refused.Exhausted max_place) ↔ self.old.made ≡ max_place }
        ensures cause { IfErr result (λ why. (why ≡ refused.Exhausted max_place) ⊎ (why ≡ refused.NoMemory)) }
        ensures unchanged { OnErr result (self.new ≡ self.old) }
        ensures held { AreHeld self.new }
    {
        if self.made == MAX_PLACE {
            return Err(Refused::Exhausted { last: MAX_PLACE });
        }
        let number = self.made + 1;
        let (behind, from) = seek(&self.nodes, self.first, Stop::Limit(limit));
        let pin = Pin {
            number,
            names: List::of(names),
            limit,
        };
        let Ok(key) = self.nodes.insert(Node { pin, next: from }) else {
            return Err(Refused::NoMemory);
        };
        self.first = relink(&mut self.nodes, self.first, behind, Some(key));
        self.made = number;
        Ok(HeldPin { number, limit })
    }

    /// The number that the next pin gets, and None where as many were made as there are numbers.
    pub fn next_number(&self) -> Option<u64>
        ensures some { IfSome result (λ number. number ≡ self.now.made + 1) }
        ensures none { result ≡ None ↔ self.now.made ≡ max_place }
    {
        if self.made == MAX_PLACE {
            return None;
        }
        Some(self.made + 1)
    }

    /// Lets a pin go. False exactly where its number isn't held, as that of a pin which other pins gave may not be, and then nothing changes. It takes no memory.
    pub fn unpin(&mut self, pin: HeldPin) -> bool
        ensures found { result ≡ is_held pin.number self.old.pins }
        ensures others { self.new ≡ record self.old { pins = without pin.number self.old.pins } }
        ensures none { OnFalse result (self.new ≡ self.old) }
        ensures held { AreHeld self.new }
    {
        let HeldPin { number, limit: _ } = pin;
        let (behind, from) = seek(&self.nodes, self.first, Stop::Number(number));
        let Some(key) = from else {
            return false;
        };
        let Some(node) = self.nodes.try_remove(key) else {
            return false;
        };
        self.first = relink(&mut self.nodes, self.first, behind, node.next);
        true
    }

    /// The number and the limit of the pin of the least limit, of several the least number; None exactly where none is held.
    pub fn first_limit(&self) -> Option<(u64, u64)>
        ensures first { result ≡ first_limit_of self.now.pins }
        ensures least { IfSome result (λ found. All (IsFirst found.0 found.1) self.now.pins) }
    {
        match node_at(&self.nodes, self.first) {
            Some(node) => Some((node.pin.number, node.pin.limit)),
            None => None,
        }
    }

    /// Whether a pin that is held keeps that name: at most one binary search in the names of each. It takes no memory.
    pub fn holds(&self, name: Name) -> bool
        ensures { result ≡ is_named self.now.pins name }
    {
        let (_, from) = seek(&self.nodes, self.first, Stop::Name(name));
        from.is_some()
    }

    /// Those of the names, in their order, that no pin that is held keeps.
    pub fn retired_free(&self, alloc: Global, retired: &[Name]) -> Result<Vec<Name>, NoMemory>
        ensures { IfOk result (λ free. free.items ≡ filter (λ name. not (is_named self.now.pins name)) retired.now) }
    {
        let mut free = Vec::new(alloc);
        for name in retired {
            if !self.holds(*name) {
                free.push(*name)?;
            }
        }
        Ok(free)
    }

    /// How many are held.
    pub fn len(&self) -> usize
        ensures len { result ≡ length self.now.pins }
        ensures held { AreHeld self.now }
    {
        self.nodes.len()
    }
}
