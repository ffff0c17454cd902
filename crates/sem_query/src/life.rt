// The life of one key.
ghost use Rattle.std.specs.Prelude.{◌≡◌, ◌+◌, ◌<◌, ◌^◌, Some, None, nat_lt, count_by};
ghost use Rattle.std.specs.Prelude.{OnOk};
ghost use Rattle.sem_query.specs.Lives.{is_below as is_below_spec};
ghost use Rattle.sem_query.specs.Lives.{is_ungranted as is_ungranted_spec};
ghost use Rattle.sem_query.specs.Lives.{is_odd as is_odd_spec, held_at as held_at_spec};
ghost use Rattle.sem_query.specs.Lives.{told_holder as told_spec, life_granted};
ghost use Rattle.sem_query.specs.Building.{noted_now, begun_life};

use crate::holder::Holder;
use sem_key::{Key, OutOfMemory};
use sem_msg::Seq;
use std::alloc::Global;
use std::marker::Model;

/// Numbers of entries, in rising order.
pub type Marks = Seq<u64>;

/// The life of a key, as a journal tells it. Only `note` takes memory.
#[derive(Debug, Drop)]
pub struct Life {
    pub key: Key,
    /// The selector that held it; 0 if it was never held.
    pub sel: u8,
    /// The entry that granted it; none for a root or service.
    pub granted: Option<u64>,
    /// The entry that made it held; none for a root or service, or if it was never held.
    pub held: Option<u64>,
    /// The entries that change its mark; it is held before and after them.
    pub marked: Marks,
    /// The entry that made it no longer live.
    pub gone: Option<u64>,
}

impl Model for Life {
    ghost use Rattle.sem_query.specs.Lives.{KeyLife};

    ghost Value = { KeyLife };

    ghost view = { λ l. record {
      key = l.key;
      sel = l.sel;
      granted = l.granted;
      held = l.held;
      marked = l.marked;
      gone = l.gone;
    } };
}

impl Life {
    // The life of a key that is held from the start at that selector, or that is yet to be granted.
    pub(crate) fn new(alloc: Global, key: Key, sel: Option<u8>) -> Life
        ensures { result ≡ begun_life key sel }
    {
        Life {
            key,
            sel: sel.unwrap_or(0),
            granted: None,
            held: None,
            marked: Marks::new(alloc),
            gone: if sel.is_some() { None } else { Some(0) },
        }
    }

    // Begins the life with entry `n`, which grants the key.
    pub(crate) fn grant(&mut self, alloc: Global, n: u64)
        ensures { self.new ≡ life_granted self.old.key n }
    {
        *self = Life {
            key: self.key,
            sel: 0,
            granted: Some(n),
            held: None,
            marked: Marks::new(alloc),
            gone: None,
        };
    }

    // Notes where the key is after entry `n`; all earlier entries are noted.
    pub(crate) fn note(&mut self, n: u64, later: Holder) -> Result<(), OutOfMemory>
        requires { n + 1 < 2 ^ 64 }
        ensures ok { OnOk result (self.new ≡ noted_now n later self.old) }
        ensures key { self.new.key ≡ self.old.key }
    {
        let before = self.told(n + 1);
        self.sel = later.selector_or(self.sel);
        if !before.is_held() && later.is_held() {
            self.held = Some(n);
        }
        if before.changes_mark(later) {
            self.marked.push(n)?;
        }
        if before.is_live() && !later.is_live() {
            self.gone = Some(n);
        }
        Ok(())
    }

    /// Where the key is after the first `n` entries.
    pub fn told(&self, n: u64) -> Holder
        ensures { result ≡ told_spec n self.now }
    {
        if is_ungranted(n, self.granted) || is_below(n, self.gone) {
            Holder::No
        } else if self.granted.is_some() && !is_below(n, self.held) {
            Holder::Way
        } else {
            held_at(is_odd(changes_below(&self.marked, n)), self.sel)
        }
    }
}

// Whether the entry is there and below `n`.
fn is_below(n: u64, entry: Option<u64>) -> bool
    ensures { result ≡ is_below_spec n entry }
{
    match entry {
        Some(at) => at < n,
        None => false,
    }
}

// Whether the entry that grants is `n` or a later one.
fn is_ungranted(n: u64, entry: Option<u64>) -> bool
    ensures { result ≡ is_ungranted_spec n entry }
{
    match entry {
        Some(at) => !(at < n),
        None => false,
    }
}

// How many changes of the mark are below `n`.
fn changes_below(marked: &Marks, n: u64) -> usize
    ensures { result ≡ count_by (λ m. nat_lt m n) marked.now }
{
    marked.as_slice().iter().filter(|at| **at < n).count()
}

fn is_odd(number: usize) -> bool
    ensures { result ≡ is_odd_spec number }
{
    number % 2 == 1
}

// Where a held key is.
fn held_at(is_marked: bool, sel: u8) -> Holder
    ensures { result ≡ held_at_spec is_marked sel }
{
    if is_marked {
        Holder::Marked(sel)
    } else {
        Holder::Unmarked(sel)
    }
}
