//! Scripts of several callers and phases, which are made from a seed.
ghost use Rattle.std.specs.Prelude.{◌<◌, ◌≤◌};

use crate::generated::{LETTERS, words_of};
use lethe_images::Dice;
use std::alloc::Global;
use std::test::Fail;

/// How many callers there may be.
const CALLERS: usize = 8;

/// How many of its slots a caller uses.
const SLOTS: usize = 2;

/// A script of two to eight callers and one to five phases, for a small configuration.
#[derive(Drop)]
pub struct CallersScript {
    /// The words of its configuration.
    pub words: Vec<&'static str>,
    /// Its lines.
    pub script: String,
}

impl CallersScript {
    /// The script of a seed.
    pub fn of(alloc: Global, seed: u64) -> Result<CallersScript, Fail> {
        let mut writing = Writing::new(alloc, seed);
        let words = words_of(alloc, &mut writing.dice)?;
        let callers = writing.dice.below(7).saturating_add(2);
        writing.add_phase(callers)?;
        for _ in 0..writing.dice.below(5) {
            writing.script.push_str("phase\n")?;
            writing.add_phase(callers)?;
        }
        let script = writing.script;
        Ok(CallersScript { words, script })
    }
}

// What was written of a script.
#[derive(Drop)]
struct Writing {
    alloc: Global,
    dice: Dice,
    // With two letters the keys come again soon.
    has_two_letters: bool,
    // Which slots each caller holds.
    held: [[bool; SLOTS]; CALLERS],
    // How many puts there are. The value of each is its own.
    puts: usize,
    // The time of the last tick.
    time: usize,
    script: String,
}

impl Writing {
    fn new(alloc: Global, seed: u64) -> Writing {
        let mut dice = Dice::new(seed);
        let has_two_letters = dice.below(2) == 0;
        Writing {
            alloc,
            dice,
            has_two_letters,
            held: [[false; SLOTS]; CALLERS],
            puts: 0,
            time: 0,
            script: String::new(alloc),
        }
    }

    fn add_phase(&mut self, callers: usize) -> Result<(), Fail>
        requires some { 0 < callers }
        requires most { callers ≤ 8 }
    {
        for _ in 0..self.dice.below(30).saturating_add(10) {
            let caller = self.dice.below(callers);
            self.add_line(caller)?;
        }
        Ok(())
    }

    // Writes a line of the caller at an index.
    fn write(&mut self, caller: usize, text: &str) -> Result<(), Fail> {
        let number = caller.saturating_add(1);
        let line = format!(in self.alloc; "{number} {text}\n")?;
        self.script.push_str(&line)?;
        Ok(())
    }

    fn key(&mut self) -> Result<String, Fail> {
        let letters = if self.has_two_letters {
            &LETTERS[..2]
        } else {
            &LETTERS[..]
        };
        self.dice.key(self.alloc, letters)
    }

    fn add_line(&mut self, caller: usize) -> Result<(), Fail>
        requires { caller < 8 }
    {
        match self.dice.below(20) {
            0..7 => self.put(caller),
            7..9 => self.delete(caller),
            9 => self.erase(caller),
            10..12 => self.get(caller),
            12..14 => self.scan(caller),
            14 => self.tick(caller),
            15 => self.write(caller, "stat"),
            _ => self.add_slot_line(caller),
        }
    }

    fn put(&mut self, caller: usize) -> Result<(), Fail> {
        let (key, due) = (self.key()?, self.dice.below(9));
        self.puts = self.puts.saturating_add(1);
        let value = self.puts;
        let text = format!(in self.alloc; "put {key} {due} v{value}")?;
        self.write(caller, &text)
    }

    fn delete(&mut self, caller: usize) -> Result<(), Fail> {
        let key = self.key()?;
        let text = format!(in self.alloc; "del {key}")?;
        self.write(caller, &text)
    }

    fn erase(&mut self, caller: usize) -> Result<(), Fail> {
        let low = self.dice.below(9);
        let high = low.saturating_add(self.dice.below(3)).saturating_add(1);
        let text = format!(in self.alloc; "erase {low} {high}")?;
        self.write(caller, &text)
    }

    fn get(&mut self, caller: usize) -> Result<(), Fail> {
        let key = self.key()?;
        let text = format!(in self.alloc; "get {key}")?;
        self.write(caller, &text)
    }

    fn scan(&mut self, caller: usize) -> Result<(), Fail> {
        let (low, high) = (self.key()?, self.key()?);
        let text = format!(in self.alloc; "scan {low} {high}")?;
        self.write(caller, &text)
    }

    // A tick some time later, or a little behind the last one.
    fn tick(&mut self, caller: usize) -> Result<(), Fail> {
        let time = self.time.saturating_add(self.dice.below(60));
        self.time = time.saturating_sub(5);
        let to = self.time;
        let text = format!(in self.alloc; "tick {to}")?;
        self.write(caller, &text)
    }

    // A pin where a slot is free, else a read in it, or as often an unpin.
    fn add_slot_line(&mut self, caller: usize) -> Result<(), Fail>
        requires { caller < 8 }
    {
        let slot = self.dice.below(SLOTS);
        if !self.held[caller][slot] {
            self.held[caller][slot] = true;
            let text = format!(in self.alloc; "pin {slot}")?;
            return self.write(caller, &text);
        }
        match self.dice.below(4) {
            0 => self.get_in(caller, slot),
            1 => self.scan_in(caller, slot),
            _ => {
                self.held[caller][slot] = false;
                let text = format!(in self.alloc; "unpin {slot}")?;
                self.write(caller, &text)
            }
        }
    }

    fn get_in(&mut self, caller: usize, slot: usize) -> Result<(), Fail> {
        let key = self.key()?;
        let text = format!(in self.alloc; "pget {slot} {key}")?;
        self.write(caller, &text)
    }

    fn scan_in(&mut self, caller: usize, slot: usize) -> Result<(), Fail> {
        let (low, high) = (self.key()?, self.key()?);
        let text = format!(in self.alloc; "pscan {slot} {low} {high}")?;
        self.write(caller, &text)
    }
}
