//! Numbers that follow from a seed.
ghost use Rattle.std.specs.Prelude.{◌<◌, length};

use std::alloc::Global;
use std::test::Fail;

/// Numbers that follow from a seed.
#[derive(Drop)]
pub struct Dice(u64);

impl Dice {
    /// Those of a seed.
    pub fn new(seed: u64) -> Dice {
        Dice(seed)
    }

    /// The next number, which is below the bound.
    pub fn below(&mut self, bound: usize) -> usize
        requires { 0 < bound }
        ensures { result < bound }
    {
        self.0 = self
            .0
            .wrapping_mul(6_364_136_223_846_793_005)
            .wrapping_add(1_442_695_040_888_963_407);
        (self.0 >> 33) as usize % bound
    }

    /// One of the words.
    pub fn one_of(&mut self, words: &[&'static str]) -> &'static str
        requires { 0 < length words.now }
    {
        words[self.below(words.len())]
    }

    /// A key of one to three of the letters.
    pub fn key(&mut self, alloc: Global, letters: &[&'static str]) -> Result<String, Fail>
        requires { 0 < length letters.now }
    {
        let mut key = String::new(alloc);
        for _ in 0..=self.below(3) {
            key.push_str(self.one_of(letters))?;
        }
        Ok(key)
    }
}
