// Where the rows of keys are.
use crate::rows::TreeRow;
use sem_key::{Key, OutOfMemory, pack};
use std::alloc::Global;

/// The places of keys among the rows.
#[derive(Drop)]
pub struct Places {
    // The packed words of the keys with their places, in rising order.
    sorted: Vec<(u64, usize)>,
}

impl Places {
    /// The places of these rows.
    pub fn of_rows(alloc: Global, rows: &[TreeRow]) -> Result<Places, OutOfMemory> {
        let mut sorted = Vec::new(alloc);
        for (place, row) in rows.iter().enumerate() {
            sorted.push((pack(row.key), place))?;
        }
        sorted.sort()?;
        Ok(Places { sorted })
    }

    /// The place of the row of a key, if it has one.
    pub fn of(&self, key: Key) -> Option<usize> {
        let word = pack(key);
        let at = self.sorted.binary_search_by_key(&word, |one| one.0).ok()?;
        self.sorted.get(at).map(|one| one.1)
    }
}
