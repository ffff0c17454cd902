// The numbers under which a client received files.
ghost use Rattle.std.specs.Prelude.{◌≡◌, ℕ, ◌≤◌, ◌==◌, ◌||◌, false, slice_index_or};

use std::marker::Model;

/// How many numbers a client has.
const NUMBERS: usize = 16;

/// The used numbers of a client.
#[derive(Clone, Copy, Debug)]
pub(crate) struct Numbers {
    used: [bool; NUMBERS],
}

impl Model for Numbers {
    ghost use Rattle.std.specs.Prelude.{Bool, List};

    ghost Value = { List Bool };

    ghost view = { λ n. n.used };

    ghost inverse = { λ used. record { used = used } };
}

impl Numbers {
    /// No number was used.
    pub(crate) fn new() -> Self
        ensures { (g : ℕ) → slice_index_or result g false ≡ false }
    {
        Numbers {
            used: [false; NUMBERS],
        }
    }

    pub(crate) fn contains(&self, number: u8) -> bool
        ensures { result ≡ slice_index_or self.now number false }
    {
        self.used.get(usize::from(number)).copied().unwrap_or(false)
    }

    /// Marks the number as used.
    pub(crate) fn put(&mut self, number: u8)
        requires { number ≤ 15 }
        ensures { (g : ℕ) →
            slice_index_or self.new g false ≡ ((number == g) || slice_index_or self.old g false) }
    {
        self.used[usize::from(number)] = true;
    }
}
