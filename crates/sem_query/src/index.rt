ghost use Rattle.std.specs.Prelude.{◌≡◌, ◌+◌, ◌<◌, ◌^◌, find, option_copied, IfOk, IfErr, OnOk};
ghost use Rattle.sem_key.specs.KeyName.{key_eq};
ghost use Rattle.sem_query.specs.Lives.{told_of};
ghost use Rattle.sem_query.specs.Building.{noted_of, granted_of};
ghost use Rattle.sem_query.specs.Searching.{AreLives, IsLifeAt, IsGapFor};

use crate::holder::Holder;
use crate::life::Life;
use sem_key::{Key, OutOfMemory, pack};
use std::alloc::Global;
use std::marker::Model;

/// The lives of keys, in rising key order. Only `build` and `note` take memory.
#[derive(Debug, Drop)]
pub struct Index {
    lives: Vec<Life>,
}

impl Model for Index {
    ghost use Rattle.std.specs.Prelude.{List};
    ghost use Rattle.sem_query.specs.Lives.{KeyLife};
    ghost use Rattle.sem_query.specs.Searching.{AreLives};

    ghost Value = { List KeyLife };

    ghost view = { λ x. x.lives.items };

    ghost invariant = { λ x. AreLives x.lives.items };
}

impl Index {
    // An index of these lives, which are in rising key order.
    pub(crate) fn new(lives: Vec<Life>) -> Index
        requires { AreLives lives.items }
        ensures { result ≡ lives.items }
    {
        Index { lives }
    }

    /// The lives, in rising key order.
    pub fn as_slice(&self) -> &[Life]
        ensures { result.now ≡ self.now }
    {
        &self.lives
    }

    /// Where the key is after the first `n` entries.
    pub fn holder(&self, key: Key, n: u64) -> Holder
        ensures { result ≡ told_of self.now key n }
    {
        match self.life(key) {
            Some(life) => life.told(n),
            None => Holder::No,
        }
    }

    /// The life of the key; none if it has none.
    pub fn life(&self, key: Key) -> Option<&Life>
        ensures { option_copied result ≡ find (λ l. key_eq l.key key) self.now }
    {
        match self.place(key) {
            Ok(at) => {
                let lives = self.as_slice();
                Some(&lives[at])
            }
            Err(_) => None,
        }
    }

    // Begins the life of the key with entry `n`, which grants the key. If the key has no life, all
    // stays.
    pub(crate) fn grant(&mut self, alloc: Global, key: Key, n: u64)
        ensures { self.new ≡ granted_of key n self.old }
    {
        match self.place(key) {
            Ok(at) => self.lives[at].grant(alloc, n),
            Err(_) => {}
        }
    }

    // Notes where the key is after entry `n`; all earlier entries are noted. If the key has no
    // life, all stays.
    pub(crate) fn note(&mut self, key: Key, n: u64, later: Holder) -> Result<(), OutOfMemory>
        requires { n + 1 < 2 ^ 64 }
        ensures { OnOk result (self.new ≡ noted_of key n later self.old) }
    {
        match self.place(key) {
            Ok(at) => self.lives[at].note(n, later),
            Err(_) => Ok(()),
        }
    }

    // The place of the key's life in the list, or the place where it would go.
    fn place(&self, key: Key) -> Result<usize, usize>
        ensures found { IfOk result (IsLifeAt self.now key) }
        ensures absent { IfErr result (IsGapFor self.now key) }
        ensures lives { AreLives self.now }
    {
        self.lives
            .binary_search_by_key(&pack(key), |life| pack(life.key))
    }
}
