//! Pins of which two have one limit, and the names that they keep.
ghost use Rattle.std.specs.Prelude.{◌<◌, ◌≤◌, IfOk, IfSome, vec_len};
ghost use Rattle.lethe_pins.specs.Held.{Ascend};

use lethe_base::{Kind, Name, NoMemory};
use lethe_pins::{HeldPin, Pins};
use std::alloc::Global;
use std::process::Abort;
use std::test::Fail;

fn page(no: u64) -> Name {
    Name {
        kind: Kind::Page,
        no,
    }
}

/// The pages of the numbers from one up to another.
fn pages(alloc: Global, from: u64, to: u64) -> Result<Vec<Name>, NoMemory>
    ensures { IfOk result (λ names. Ascend names.items) }
{
    let mut names = Vec::new(alloc);
    for no in from..to {
        names.push(Name {
            kind: Kind::Page,
            no,
        })?;
    }
    Ok(names)
}

/// Pins, with what lets each of them go that is held.
struct Made {
    pins: Pins,
    held: Vec<HeldPin>,
}

impl Made {
    fn new(alloc: Global) -> Made {
        Made {
            pins: Pins::new(alloc),
            held: Vec::new(alloc),
        }
    }

    /// A pin of that limit that keeps the pages, by its number.
    fn pin(&mut self, alloc: Global, from: u64, to: u64, limit: u64) -> Result<u64, Fail> {
        let Ok(pin) = self.pins.pin(pages(alloc, from, to)?, limit) else {
            return Err(Fail::new("a pin"));
        };
        let number = pin.number();
        match self.held.push(pin) {
            Ok(()) => Ok(number),
            Err(failed) => {
                self.pins.unpin(failed.value);
                Err(Fail::new("memory"))
            }
        }
    }

    /// The pins 1, 2 and 3 with the limits 100, 90 and 90. They keep the pages 1 to 3, 3 to 5 and 7.
    fn three(&mut self, alloc: Global) -> Result<(), Fail> {
        for (from, to, limit) in [(1, 4, 100), (3, 6, 90), (7, 8, 90)] {
            self.pin(alloc, from, to, limit)?;
        }
        Ok(())
    }

    fn place_of(&self, number: u64) -> Option<usize>
        ensures { IfSome result (λ place. place < vec_len self.now.held) }
    {
        self.held.iter().position(|pin| pin.number() == number)
    }

    /// Lets the pin of that number go, if it is held.
    fn unpin(&mut self, number: u64) -> bool {
        match self.place_of(number) {
            Some(place) => self.pins.unpin(self.held.remove(place)),
            None => false,
        }
    }

    /// Offers the pin of that number to pins that didn't give it.
    fn offer(&mut self, number: u64, others: &mut Pins) -> bool {
        match self.place_of(number) {
            Some(place) => others.unpin(self.held.remove(place)),
            None => false,
        }
    }

    /// Lets all go that are held. Answers how many are held then.
    fn end(self) -> usize {
        let Made { mut pins, mut held } = self;
        while let Some(pin) = held.pop() {
            pins.unpin(pin);
        }
        held.destroy_empty();
        pins.len()
    }
}

fn go_by_limit(rt: &impl Abort, alloc: Global, made: &mut Made) -> Result<(), Fail> {
    assert_eq!(rt; made.pins.first_limit(), None);
    made.three(alloc)?;
    for first in [(2, 90), (3, 90), (1, 100)] {
        assert_eq!(rt; made.pins.first_limit(), Some(first));
        assert!(rt; made.unpin(first.0));
    }
    assert_eq!(rt; made.pins.first_limit(), None);
    assert_eq!(rt; made.pins.len(), 0);
    Ok(())
}

#[test]
fn pins_come_by_limit_then_by_number(rt: HostRuntime) -> Result<(), Fail> {
    let mut made = Made::new(rt.alloc());
    let told = go_by_limit(&rt, rt.alloc(), &mut made);
    assert_eq!(rt; made.end(), 0);
    told
}

fn go_once(rt: &impl Abort, alloc: Global, made: &mut Made) -> Result<(), Fail> {
    made.three(alloc)?;
    assert!(rt; made.unpin(3));
    assert_eq!(rt; made.pins.len(), 2);
    assert_eq!(rt; made.pin(alloc, 1, 2, 95)?, 4);
    assert_eq!(rt; made.pins.len(), 3);
    for first in [(2, 90), (4, 95), (1, 100)] {
        assert_eq!(rt; made.pins.first_limit(), Some(first));
        assert!(rt; made.unpin(first.0));
    }
    assert_eq!(rt; made.pin(alloc, 1, 2, 5)?, 5);
    assert_eq!(rt; made.pins.first_limit(), Some((5, 5)));
    Ok(())
}

#[test]
fn a_pin_goes_and_its_number_never_comes_back(rt: HostRuntime) -> Result<(), Fail> {
    let mut made = Made::new(rt.alloc());
    let told = go_once(&rt, rt.alloc(), &mut made);
    assert_eq!(rt; made.end(), 0);
    told
}

fn offer_all(
    rt: &impl Abort,
    alloc: Global,
    made: &mut Made,
    others: &mut Made,
) -> Result<(), Fail> {
    made.three(alloc)?;
    others.three(alloc)?;
    assert_eq!(rt; made.pin(alloc, 1, 2, 95)?, 4);
    assert!(rt; others.unpin(3));
    for number in [3, 4] {
        assert!(rt; !made.offer(number, &mut others.pins));
        assert_eq!(rt; others.pins.len(), 2);
    }
    Ok(())
}

#[test]
fn a_pin_whose_number_isnt_held_lets_none_go(rt: HostRuntime) -> Result<(), Fail> {
    let (mut made, mut others) = (Made::new(rt.alloc()), Made::new(rt.alloc()));
    let told = offer_all(&rt, rt.alloc(), &mut made, &mut others);
    let left = made.end();
    assert_eq!(rt; others.end(), 0);
    assert_eq!(rt; left, 2);
    told
}

/// A page, and whether a pin keeps it: 1 is of the first pin made, 3 of two, 5 and 7 of one behind it, 2 in the middle of a pin's pages.
const KEPT: [(u64, bool); 9] = [
    (0, false),
    (1, true),
    (2, true),
    (3, true),
    (4, true),
    (5, true),
    (6, false),
    (7, true),
    (8, false),
];

fn keep_each(rt: &impl Abort, alloc: Global, made: &mut Made) -> Result<(), Fail> {
    made.three(alloc)?;
    for (no, kept) in KEPT {
        assert_eq!(rt; made.pins.holds(page(no)), kept, "{no}");
        assert!(rt; !Pins::new(alloc).holds(page(no)));
    }
    let file = Name {
        kind: Kind::File,
        no: 3,
    };
    assert!(rt; !made.pins.holds(file));
    Ok(())
}

#[test]
fn a_name_is_held_where_a_pin_keeps_it(rt: HostRuntime) -> Result<(), Fail> {
    let mut made = Made::new(rt.alloc());
    let told = keep_each(&rt, rt.alloc(), &mut made);
    assert_eq!(rt; made.end(), 0);
    told
}

fn keep_as_long(rt: &impl Abort, alloc: Global, made: &mut Made) -> Result<(), Fail> {
    made.three(alloc)?;
    assert!(rt; made.unpin(2));
    assert!(rt; made.pins.holds(page(3)) && !made.pins.holds(page(4)) && made.pins.holds(page(7)));
    assert!(rt; made.unpin(1));
    assert!(rt; !made.pins.holds(page(3)) && made.pins.holds(page(7)));
    Ok(())
}

#[test]
fn a_name_is_held_as_long_as_one_pin_keeps_it(rt: HostRuntime) -> Result<(), Fail> {
    let mut made = Made::new(rt.alloc());
    let told = keep_as_long(&rt, rt.alloc(), &mut made);
    assert_eq!(rt; made.end(), 0);
    told
}

fn free_some(rt: &impl Abort, alloc: Global, made: &mut Made) -> Result<(), Fail> {
    made.three(alloc)?;
    let retired = [page(8), page(3), page(6), page(5), page(8)];
    let free = made.pins.retired_free(alloc, &retired)?;
    assert_eq!(rt; free.as_slice(), [page(8), page(6), page(8)].as_slice());
    assert!(rt; made.unpin(2));
    let free = made.pins.retired_free(alloc, &retired)?;
    assert_eq!(rt;
        free.as_slice(),
        [page(8), page(6), page(5), page(8)].as_slice()
    );
    Ok(())
}

#[test]
fn retired_names_are_free_where_no_pin_keeps_them(rt: HostRuntime) -> Result<(), Fail> {
    let mut made = Made::new(rt.alloc());
    let told = free_some(&rt, rt.alloc(), &mut made);
    assert_eq!(rt; made.end(), 0);
    told
}
