use crate::holder::Holder;
use sem_key::Key;

/// Where a key is after the first entries of a journal, followed from entry to entry.
#[derive(Clone, Copy, Debug)]
pub struct Sighting {
    pub key: Key,
    /// After how many entries of the journal the place of the key is asked for.
    pub count: u64,
    /// Where the key is after the entries so far, or after `count` of them if there are more.
    pub there: Holder,
    /// Whether the next entry may move the key.
    pub is_moving: bool,
}
