// The keys that a key was made from, and the entry that takes one of them back.
use sem_grants::ended_by;
use sem_key::{Key, OutOfMemory, pack, same_key};
use sem_msg::{Call, Detail, Entry};
use std::alloc::Global;

// A key of a line, and the entry that made the next key from it; none for the first key, since the
// line makes no key from it.
#[derive(Clone, Copy, Debug)]
struct Ancestor {
    key: Key,
    child: Option<usize>,
}

/// The line of a key: the key, the one that it was made from, and so on up to a root.
#[derive(Drop)]
pub struct Line {
    /// The key that the first one was made from; a root has none.
    pub parent: Option<Key>,
    // The keys, by packed word, in rising order.
    keys: Vec<Ancestor>,
}

impl Line {
    /// The line of the key, by the grants of the entries.
    pub fn of(alloc: Global, entries: &[Entry], key: Key) -> Result<Line, OutOfMemory> {
        let mut keys = Vec::new(alloc);
        let mut first = None;
        let mut last = Ancestor { key, child: None };
        for (number, entry) in entries.iter().enumerate().rev() {
            if let Some((parent, child)) = entry.grant
                && same_key(&child, &last.key)
            {
                keys.push(last)?;
                last = Ancestor {
                    key: parent,
                    child: Some(number),
                };
                first = first.or(Some(parent));
            }
        }
        keys.push(last)?;
        keys.sort_by_key(|ancestor| pack(ancestor.key))?;
        Ok(Line {
            parent: first,
            keys,
        })
    }

    /// The number of the first entry that takes a key of the line back.
    pub fn taker(&self, entries: &[Entry]) -> Option<usize> {
        for (number, entry) in entries.iter().enumerate() {
            if self.is_taken_by(number, entry) {
                return Some(number);
            }
        }
        None
    }

    // Whether the entry takes a key of the line back: it begins a revoke of one, or a clear of one
    // that the line goes on from, or the VPE of one ends.
    fn is_taken_by(&self, number: usize, entry: &Entry) -> bool {
        if let Some(vpe) = ended_by(entry) {
            return self.keys.iter().any(|ancestor| ancestor.key.vpe == vpe);
        }
        let Some(ancestor) = entry.cut.and_then(|root| self.find(root)) else {
            return false;
        };
        !is_clear(entry) || ancestor.child.is_some_and(|child| child < number)
    }

    // The key in the line.
    fn find(&self, key: Key) -> Option<Ancestor> {
        let word = pack(key);
        let at = self
            .keys
            .binary_search_by_key(&word, |ancestor| pack(ancestor.key))
            .ok()?;
        self.keys.get(at).copied()
    }
}

fn is_clear(entry: &Entry) -> bool {
    match entry.detail {
        Detail::Called {
            call: Call::Clear { .. },
            ..
        } => true,
        _ => false,
    }
}
