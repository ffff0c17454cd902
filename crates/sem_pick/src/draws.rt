ghost use Rattle.std.specs.Prelude.{◌≡◌, ◌<◌, ◌%◌};
ghost use Rattle.rand_pcg.specs.Pcg.{pcg32};
ghost use Rattle.sem_pick.specs.Seeds.{generator_of};

use rand_core::utils::NextWord;
use rand_pcg::Lcg64Xsh32;
use std::marker::Model;

/// The words of a seed; each is drawn once, in order. No call of it takes memory.
#[derive(Debug, Drop)]
pub struct Draws {
    words: Lcg64Xsh32,
}

impl Model for Draws {
    ghost use Rattle.rand_pcg.specs.Lcg.{Lcg};

    ghost Value = { Lcg };

    ghost view = { λ d. d.words };
}

impl Draws {
    /// The words of that seed, none drawn yet.
    pub fn new(seed: u64) -> Draws
        ensures { result ≡ generator_of seed }
    {
        Draws {
            words: Lcg64Xsh32::new(seed, 1),
        }
    }

    /// A number below `n`, which is at least 1: the remainder of the next word.
    pub fn pick(&mut self, n: u32) -> u32
        requires positive { 0 < n }
        ensures number { result ≡ (pcg32 self.old).0 % n }
        ensures draws { self.new ≡ (pcg32 self.old).1 }
    {
        self.words.next_word() % n
    }

    /// A place among `count`, which is at least 1: the remainder of the next word.
    pub fn pick_place(&mut self, count: usize) -> usize
        requires positive { 0 < count }
        ensures place { result ≡ (pcg32 self.old).0 % count }
        ensures draws { self.new ≡ (pcg32 self.old).1 }
    {
        self.words.next_word() as usize % count
    }
}
