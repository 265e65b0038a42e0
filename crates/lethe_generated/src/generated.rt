//! Scripts that are made from a seed, and what a plain map prints for them.
ghost use Rattle.std.specs.Prelude.{◌<◌, length};

use lethe_images::Dice;
use lethe_test_values::SMALL_WORDS;
use std::alloc::Global;
use std::collections::BTreeMap;
use std::test::Fail;

/// The letters of the keys.
pub(crate) const LETTERS: [&str; 6] = ["a", "b", "c", "d", "e", "f"];

/// A range that has all keys.
const ALL: (&str, &str) = ("a", "g");

/// A script that reads all of a store, and makes one more put.
pub const READ_AND_PUT: &str = "1 scan a g\n1 put a 9 more\n1 get a\n";

// The words of a small configuration: few entries make a file, and few files a full level.
pub(crate) fn words_of(alloc: Global, dice: &mut Dice) -> Result<Vec<&'static str>, Fail> {
    let mut words = SMALL_WORDS;
    let page = dice.one_of(&["1", "2"]);
    let tile = dice.one_of(&["1", "2"]);
    words[4] = dice.one_of(&["2", "3", "4", "5"]);
    words[6] = page;
    words[8] = tile;
    // A buffer has at most the entries of a file, of two tiles.
    words[12] = match (page, tile) {
        ("1", "1") => "2",
        _ => dice.one_of(&["2", "3", "4"]),
    };
    let mut words = words.to_vec(alloc)?;
    if dice.below(2) == 0 {
        words.push("--pick")?;
        words.push("sd")?;
    }
    Ok(words)
}

/// Lines of a script, and what is printed for them.
#[derive(Drop)]
pub struct Lines {
    pub script: String,
    pub text: String,
}

impl Lines {
    fn new(alloc: Global) -> Lines {
        Lines {
            script: String::new(alloc),
            text: String::new(alloc),
        }
    }

    fn add(&mut self, script: &str, text: &str) -> Result<(), Fail> {
        self.script.push_str(script)?;
        self.text.push_str(text)?;
        Ok(())
    }
}

// A plain map from a key to its delete key and the place of its put, which the value names.
#[derive(Drop)]
struct Plain {
    alloc: Global,
    map: BTreeMap<String, (usize, usize)>,
    // How many changes there were.
    place: usize,
}

// What a scan prints of a key.
fn pair_of(alloc: Global, key: &str, due: usize, place: usize) -> Result<String, Fail> {
    Ok(format!(in alloc; " {key} {due} v{place}")?)
}

impl Plain {
    fn put(&mut self, lines: &mut Lines, key: String, due: usize) -> Result<(), Fail> {
        let place = self.place.saturating_add(1);
        let line = format!(in self.alloc; "1 put {key} {due} v{place}\n")?;
        lines.add(&line, &format!(in self.alloc; "1 ok {place}\n")?)?;
        self.map.insert(key, (due, place))?;
        self.place = place;
        Ok(())
    }

    fn delete(&mut self, lines: &mut Lines, key: String) -> Result<(), Fail> {
        let place = self.place.saturating_add(1);
        let line = format!(in self.alloc; "1 del {key}\n")?;
        lines.add(&line, &format!(in self.alloc; "1 ok {place}\n")?)?;
        self.map.remove(&key);
        self.place = place;
        Ok(())
    }

    // Erases the delete keys from `low` up to `high`, which is excluded.
    fn erase(&mut self, lines: &mut Lines, low: usize, high: usize) -> Result<(), Fail> {
        let place = self.place.saturating_add(1);
        let line = format!(in self.alloc; "1 erase {low} {high}\n")?;
        lines.add(&line, &format!(in self.alloc; "1 ok {place}\n")?)?;
        let mut left = BTreeMap::new(self.alloc);
        for (key, (due, put)) in self.map.iter() {
            if *due < low || high <= *due {
                left.insert(key.clone()?, (*due, *put))?;
            }
        }
        self.map = left;
        self.place = place;
        Ok(())
    }

    // What a get prints, without its caller.
    fn got(&self, key: &String) -> Result<String, Fail> {
        let at = self.place;
        match self.map.get(key) {
            Some((due, place)) => { Ok(format!(in self.alloc; "at {at} val {due} v{place}\n")?) }
            None => Ok(format!(in self.alloc; "at {at} none\n")?),
        }
    }

    fn get(&self, lines: &mut Lines, key: String) -> Result<(), Fail> {
        let line = format!(in self.alloc; "1 get {key}\n")?;
        let text = self.got(&key)?;
        lines.add(&line, &format!(in self.alloc; "1 {text}")?)
    }

    // What a scan of this range prints, without its caller.
    fn scanned(&self, low: &str, high: &str) -> Result<String, Fail> {
        let at = self.place;
        let mut count: usize = 0;
        let mut pairs = String::new(self.alloc);
        for (key, (due, place)) in self.map.iter() {
            if low <= key.as_str() && key.as_str() < high {
                count = count.saturating_add(1);
                pairs.push_str(&pair_of(self.alloc, key, *due, *place)?)?;
            }
        }
        Ok(format!(in self.alloc; "at {at} scan {count}{pairs}\n")?)
    }

    // The same map once more.
    fn copied(&self) -> Result<Plain, Fail> {
        let mut map = BTreeMap::new(self.alloc);
        for (key, held) in self.map.iter() {
            map.insert(key.clone()?, *held)?;
        }
        Ok(Plain {
            alloc: self.alloc,
            map,
            place: self.place,
        })
    }

    // One more line of one that erases in a tenth of its lines.
    fn add_erasing_line(
        &mut self,
        dice: &mut Dice,
        letters: &[&'static str],
        lines: &mut Lines,
    ) -> Result<(), Fail>
        requires { 0 < length letters.now }
    {
        if dice.below(10) != 0 {
            return self.add_line(dice, letters, lines);
        }
        let low = dice.below(9);
        let high = low.saturating_add(dice.below(3)).saturating_add(1);
        self.erase(lines, low, high)
    }

    // One more line: a change three times of five.
    fn add_line(
        &mut self,
        dice: &mut Dice,
        letters: &[&'static str],
        lines: &mut Lines,
    ) -> Result<(), Fail>
        requires { 0 < length letters.now }
    {
        let key = dice.key(self.alloc, letters)?;
        match dice.below(20) {
            0..11 => self.put(lines, key, dice.below(9)),
            11..14 => self.delete(lines, key),
            14..17 => self.get(lines, key),
            _ => {
                let other = dice.key(self.alloc, letters)?;
                let (low, high) = if key < other {
                    (key, other)
                } else {
                    (other, key)
                };
                let line = format!(in self.alloc; "1 scan {low} {high}\n")?;
                let text = self.scanned(&low, &high)?;
                lines.add(&line, &format!(in self.alloc; "1 {text}")?)
            }
        }
    }
}

// What a slot holds: the number of its pin, and the map at its point.
#[derive(Drop)]
struct Pinned {
    number: usize,
    map: Plain,
}

// Two slots, and how many pins were made since the store was opened.
#[derive(Drop)]
struct Slots {
    alloc: Global,
    held: [Option<Pinned>; 2],
    made: usize,
}

impl Slots {
    fn new(alloc: Global) -> Slots {
        Slots {
            alloc,
            held: [None, None],
            made: 0,
        }
    }

    fn are_free(&self) -> bool {
        self.held.iter().all(|slot| slot.is_none())
    }

    fn pin(&mut self, lines: &mut Lines, slot: usize, map: &Plain) -> Result<(), Fail>
        requires { slot < 2 }
    {
        let number = self.made.saturating_add(1);
        let at = map.place;
        let line = format!(in self.alloc; "1 pin {slot}\n")?;
        // The clock stands at 0, and the threshold is 100.
        let text = format!(in self.alloc; "1 at {at} pin {number} limit 100\n")?;
        lines.add(&line, &text)?;
        let map = map.copied()?;
        self.held[slot] = Some(Pinned { number, map });
        self.made = number;
        Ok(())
    }

    fn unpin(
        &mut self,
        lines: &mut Lines,
        slot: usize,
        number: usize,
        at: usize,
    ) -> Result<(), Fail>
        requires { slot < 2 }
    {
        let line = format!(in self.alloc; "1 unpin {slot}\n")?;
        let text = format!(in self.alloc; "1 at {at} unpin {number}\n")?;
        self.held[slot] = None;
        lines.add(&line, &text)
    }

    // A line of one of the slots: a pin where it is free, else a read, or twice as often an unpin.
    fn add_line(
        &mut self,
        dice: &mut Dice,
        letters: &[&'static str],
        lines: &mut Lines,
        map: &Plain,
    ) -> Result<(), Fail>
        requires { 0 < length letters.now }
    {
        let slot = dice.below(2);
        let Some(pinned) = &self.held[slot] else {
            return self.pin(lines, slot, map);
        };
        match dice.below(6) {
            0 => pinned.get(lines, slot, dice.key(self.alloc, letters)?),
            1 => pinned.scan(lines, slot),
            _ => {
                let number = pinned.number;
                self.unpin(lines, slot, number, map.place)
            }
        }
    }
}

impl Pinned {
    fn get(&self, lines: &mut Lines, slot: usize, key: String) -> Result<(), Fail> {
        let alloc = self.map.alloc;
        let number = self.number;
        let line = format!(in alloc; "1 pget {slot} {key}\n")?;
        let text = self.map.got(&key)?;
        lines.add(&line, &format!(in alloc; "1 pin {number} {text}")?)
    }

    fn scan(&self, lines: &mut Lines, slot: usize) -> Result<(), Fail> {
        let alloc = self.map.alloc;
        let number = self.number;
        let (low, high) = ALL;
        let line = format!(in alloc; "1 pscan {slot} {low} {high}\n")?;
        let text = self.map.scanned(low, high)?;
        lines.add(&line, &format!(in alloc; "1 pin {number} {text}")?)
    }
}

// What the lines of a script are.
#[derive(Clone, Copy, PartialEq, Eq)]
enum Kind {
    // Changes and reads, without erases.
    Plain,
    // A tenth of the lines are erases.
    Erasing,
    // And a third are of slots.
    Pinning,
}

/// A script for a small configuration.
#[derive(Drop)]
pub struct Generated {
    /// The words of its configuration.
    pub words: Vec<&'static str>,
    /// Its lines, ten by ten.
    pub parts: Vec<Lines>,
    // What a scan of all keys prints behind no change, behind the first, and so on.
    scans: Vec<String>,
}

impl Generated {
    /// The script of a seed, of so many times ten lines, without erases.
    pub fn of(alloc: Global, seed: u64, parts: usize) -> Result<Generated, Fail> {
        Generated::with(alloc, seed, parts, Kind::Plain)
    }

    /// The script of a seed, of so many times ten lines, of which a tenth are erases.
    pub fn erasing(alloc: Global, seed: u64, parts: usize) -> Result<Generated, Fail> {
        Generated::with(alloc, seed, parts, Kind::Erasing)
    }

    /// The script of a seed, of so many times ten lines, of which a third are of slots. Its parts are runs over one disk: each but the last ends behind a tenth line at
    /// which no slot is held, and the numbers of pins begin anew in each.
    pub fn pinning(alloc: Global, seed: u64, parts: usize) -> Result<Generated, Fail> {
        Generated::with(alloc, seed, parts, Kind::Pinning)
    }

    fn with(alloc: Global, seed: u64, parts: usize, kind: Kind) -> Result<Generated, Fail> {
        let mut dice = Dice::new(seed);
        let mut made = Generated {
            words: words_of(alloc, &mut dice)?,
            parts: Vec::new(alloc),
            scans: Vec::new(alloc),
        };
        // With two letters the keys come again soon.
        let letters = if dice.below(2) == 0 {
            &LETTERS[..2]
        } else {
            &LETTERS[..]
        };
        let mut plain = Plain {
            alloc,
            map: BTreeMap::new(alloc),
            place: 0,
        };
        made.keep_scan(&plain)?;
        let mut lines = Lines::new(alloc);
        let mut slots = Slots::new(alloc);
        for _ in 0..parts {
            made.add_ten(&mut dice, letters, kind, &mut plain, &mut slots, &mut lines)?;
            if slots.are_free() {
                made.parts.push(lines)?;
                lines = Lines::new(alloc);
                slots = Slots::new(alloc);
            }
        }
        if !lines.script.is_empty() {
            made.parts.push(lines)?;
        }
        Ok(made)
    }

    // Ten more lines.
    fn add_ten(
        &mut self,
        dice: &mut Dice,
        letters: &[&'static str],
        kind: Kind,
        plain: &mut Plain,
        slots: &mut Slots,
        lines: &mut Lines,
    ) -> Result<(), Fail>
        requires { 0 < length letters.now }
    {
        for _ in 0..10 {
            if kind == Kind::Pinning && dice.below(3) == 0 {
                slots.add_line(dice, letters, lines, plain)?;
            } else if kind == Kind::Plain {
                plain.add_line(dice, letters, lines)?;
            } else {
                plain.add_erasing_line(dice, letters, lines)?;
            }
            self.keep_scan(plain)?;
        }
        Ok(())
    }

    // Keeps what a scan of all keys prints, where there was one more change.
    fn keep_scan(&mut self, plain: &Plain) -> Result<(), Fail> {
        if self.scans.len() == plain.place {
            let text = plain.scanned(ALL.0, ALL.1)?;
            self.scans.push(format!(in plain.alloc; "1 {text}")?)?;
        }
        Ok(())
    }

    /// What is printed of `READ_AND_PUT` behind so many of its changes.
    pub fn behind(&self, alloc: Global, kept: usize) -> Result<Option<String>, Fail> {
        let Some(scan) = self.scans.get(kept) else {
            return Ok(None);
        };
        let next = kept.saturating_add(1);
        let text = format!(in alloc; "{scan}1 ok {next}\n1 at {next} val 9 more\n")?;
        Ok(Some(text))
    }
}
