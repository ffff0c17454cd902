ghost use Rattle.std.specs.Prelude.{◌≡◌, ◌≤◌, [], vec_capacity, OnOk, OnErr};

use crate::job::Job;
use sem_key::{Key, OutOfMemory};
use std::alloc::Global;

/// Working space for one step, made before it begins, so that the step takes no memory. Only `room`
/// takes memory.
#[derive(Debug, Drop)]
pub struct Scratch {
    pub keys: Vec<Key>,
    /// The keys of child links.
    pub links: Vec<Key>,
    /// The keys of removed capabilities, each with its selector.
    pub gone: Vec<(Key, u8)>,
    /// The jobs that were finished.
    pub jobs: Vec<Job>,
}

impl Scratch {
    /// Four empty lists, without room.
    pub fn new(alloc: Global) -> Self
        ensures keys { result.keys.items ≡ [] }
        ensures links { result.links.items ≡ [] }
        ensures gone { result.gone.items ≡ [] }
        ensures jobs { result.jobs.items ≡ [] }
    {
        Scratch {
            keys: Vec::new(alloc),
            links: Vec::new(alloc),
            gone: Vec::new(alloc),
            jobs: Vec::new(alloc),
        }
    }

    /// Empties all four, and makes room for `keys` elements in each of `keys`, `links` and `gone`,
    /// and for `jobs` elements in `jobs`. If memory is refused, all is as before.
    pub fn room(&mut self, keys: usize, jobs: usize) -> Result<(), OutOfMemory>
        ensures keys { OnOk result ((self.new.keys.items ≡ [])
            × (keys ≤ vec_capacity self.new.keys)) }
        ensures links { OnOk result ((self.new.links.items ≡ [])
            × (keys ≤ vec_capacity self.new.links)) }
        ensures gone { OnOk result ((self.new.gone.items ≡ [])
            × (keys ≤ vec_capacity self.new.gone)) }
        ensures jobs { OnOk result ((self.new.jobs.items ≡ [])
            × (jobs ≤ vec_capacity self.new.jobs)) }
        ensures same_keys { OnErr result (self.new.keys.items ≡ self.old.keys.items) }
        ensures same_links { OnErr result (self.new.links.items ≡ self.old.links.items) }
        ensures same_gone { OnErr result (self.new.gone.items ≡ self.old.gone.items) }
        ensures same_jobs { OnErr result (self.new.jobs.items ≡ self.old.jobs.items) }
        ensures kept_keys { vec_capacity self.old.keys ≤ vec_capacity self.new.keys }
        ensures kept_links { vec_capacity self.old.links ≤ vec_capacity self.new.links }
        ensures kept_gone { vec_capacity self.old.gone ≤ vec_capacity self.new.gone }
        ensures kept_jobs { vec_capacity self.old.jobs ≤ vec_capacity self.new.jobs }
    {
        make_room(&mut self.keys, keys)?;
        make_room(&mut self.links, keys)?;
        make_room(&mut self.gone, keys)?;
        make_room(&mut self.jobs, jobs)?;
        self.keys.clear();
        self.links.clear();
        self.gone.clear();
        self.jobs.clear();
        Ok(())
    }
}

// Makes room for that many elements in all, the present ones among them.
fn make_room<T>(items: &mut Vec<T>, all: usize) -> Result<(), OutOfMemory>
    ensures room { OnOk result (all ≤ vec_capacity items.new) }
    ensures items { items.new.items ≡ items.old.items }
    ensures kept { vec_capacity items.old ≤ vec_capacity items.new }
{
    items.reserve(all.saturating_sub(items.len()))
}
