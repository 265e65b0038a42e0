//! The names of a disk's objects.
ghost use Rattle.std.specs.Prelude.{◌==◌};
ghost use Rattle.std.proofs.Common.{rules};
ghost use Rattle.std.specs.Cmp.{partial_order_from_own_ties};
ghost use Rattle.std.specs.Cmp.Rules.{comparing};
ghost use Rattle.std.specs.Ordering.{as_partial_cmp, on, eq_of_both};
ghost use Rattle.lethe_base.specs.Names.{name_cmp, name_total, name_rank, name_no};

use std::cmp::Ordering;

/// What an object is. Names are ordered by kind in this order, then by number.
#[derive(Clone, Copy, Debug, PartialEq, Eq, PartialOrd, Ord, Drop)]
pub enum Kind {
    Gate,
    Manifest,
    Segment,
    File,
    Page,
}

/// The name of an object.
#[derive(Clone, Copy, Debug, Eq, Drop)]
pub struct Name {
    pub kind: Kind,
    pub no: u64,
}

impl PartialEq for Name {
    ghost eq = { eq_of_both (on name_rank ◌==◌) (on name_no ◌==◌) };

    ghost laws = { Prim.search (comparing, rules) };

    fn eq(&self, other: &Name) -> bool {
        self.kind as u8 == other.kind as u8 && self.no == other.no
    }
}

impl Ord for Name {
    ghost cmp = { name_cmp };

    ghost total = { name_total };

    ghost matches_partial_cmp = { Prim.search (comparing, rules) };

    ghost matches_eq = { Prim.search (comparing, rules) };

    fn cmp(&self, other: &Name) -> Ordering {
        (self.kind as u8)
            .cmp(&(other.kind as u8))
            .then(self.no.cmp(&other.no))
    }
}

impl PartialOrd for Name {
    ghost partial_cmp = { as_partial_cmp name_cmp };

    ghost laws = { partial_order_from_own_ties (Prim.search (comparing, rules)) (Prim.search (comparing, rules)) };

    fn partial_cmp(&self, other: &Name) -> Option<Ordering> {
        Some(self.cmp(other))
    }
}
