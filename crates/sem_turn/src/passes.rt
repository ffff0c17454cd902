ghost use Rattle.std.specs.Prelude.{◌≡◌, ◌++◌, ◌∷◌, [], ◌+◌, length, OnOk, OnErr, MatchOption};
ghost use Rattle.std.specs.Option.{option_to_list};

use crate::name::RunName;
use crate::pass::Pass;
use sem_key::OutOfMemory;
use std::alloc::Global;
use std::marker::Model;

/// A list of passes. Only `push` takes memory.
#[derive(Drop)]
pub struct Passes<N: RunName> {
    items: Vec<Pass<N>>,
}

impl<N: RunName> Model for Passes<N> {
    ghost use Rattle.std.specs.Prelude.{List};
    ghost use Rattle.sem_turn.specs.Passes.{PassValue};

    ghost Value = { List PassValue };

    ghost view = { λ p. p.items.items };
}

impl<N: RunName> Passes<N> {
    /// No passes.
    pub fn new(alloc: Global) -> Self
        ensures { result ≡ [] }
    {
        Passes {
            items: Vec::new(alloc),
        }
    }

    /// Appends a pass; if memory is refused, the pass is dropped.
    pub fn push(&mut self, pass: Pass<N>) -> Result<(), OutOfMemory>
        ensures ok { OnOk result (self.new ≡ self.old ++ pass ∷ []) }
        ensures err { OnErr result (self.new ≡ self.old) }
    {
        self.items.push(pass)?;
        Ok(())
    }

    /// Takes out the last pass; none if the list is empty.
    pub fn pop(&mut self) -> Option<Pass<N>>
        ensures last { self.old ≡ self.new ++ option_to_list result }
        ensures none { MatchOption result (self.old ≡ []) (λ _. length self.old
            ≡ length self.new + 1) }
    {
        self.items.pop()
    }

    /// How many passes there are.
    pub fn len(&self) -> usize
        ensures { result ≡ length self.now }
    {
        self.items.len()
    }
}
