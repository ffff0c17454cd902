ghost use Rattle.std.specs.Prelude.{◌≡◌, ◌∷◌, ◌++◌, [], true, false, length, Contains, IfOk, OnErr};
ghost use Rattle.std.specs.Prelude.{slice_get};
ghost use Rattle.std.specs.Option.{option_map};

use indexmap::IndexSet;
use sem_key::OutOfMemory;
use std::alloc::Global;
use std::marker::Model;

/// Lists of numbers, each once, in the order in which they came. Only `add` takes memory.
#[derive(Debug, Drop)]
pub struct NumberLists {
    lists: IndexSet<Vec<u32>>,
}

impl Model for NumberLists {
    ghost use Rattle.std.specs.Prelude.{ℕ, List, map};

    ghost Value = { List (List ℕ) };

    ghost view = { λ s. map (λ v. v.items) s.lists.keys };
}

impl NumberLists {
    /// No lists.
    pub fn new(alloc: Global) -> Self
        ensures { result ≡ [] }
    {
        NumberLists {
            lists: IndexSet::new(alloc),
        }
    }

    /// The number of lists.
    pub fn len(&self) -> usize
        ensures { result ≡ length self.now }
    {
        self.lists.len()
    }

    /// The list at that place, counted from 0; none past the end.
    pub fn get(&self, at: usize) -> Option<&[u32]>
        ensures { option_map (λ list. list.now) result ≡ slice_get self.now at }
    {
        match self.lists.get_index(at) {
            Some(list) => Some(list.as_slice()),
            None => None,
        }
    }

    /// Adds the list at the end, unless it is there, and returns whether it was added.
    pub fn add(&mut self, list: Vec<u32>) -> Result<bool, OutOfMemory>
        ensures added { IfOk result (λ added. added ≡ true → (Contains self.old list.items → ⊥)
            × (self.new ≡ self.old ++ list.items ∷ [])) }
        ensures there { IfOk result (λ added. added ≡ false → Contains self.old list.items
            × (self.new ≡ self.old)) }
        ensures err { OnErr result (self.new ≡ self.old) }
    {
        Ok(self.lists.insert(list)?)
    }
}
