use crate::list::Seq;
use sem_key::Key;

/// A key that is held at the end, and the selector that holds it.
#[derive(Clone, Copy, Debug, PartialEq, Eq)]
pub struct Held {
    pub key: Key,
    pub sel: u8,
}

/// The keys that are held at the end.
pub type HeldList = Seq<Held>;

/// How many keys were made, how many were cut off, and which are held at the end.
#[derive(Debug, Drop)]
pub struct Audit {
    pub made: u64,
    pub cut: u64,
    pub held: HeldList,
}
