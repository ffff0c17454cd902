// The rows of a forest.
ghost use Rattle.std.specs.Prelude.{◌≡◌, map, take, IfOk};
ghost use Rattle.sem_machine.specs.Journals.{grants, made, parent_in};

use sem_grants::{made_keys, push_grant};
use sem_key::{Key, OutOfMemory, same_key};
use sem_msg::{Entry, Journal, Setup};
use std::alloc::Global;

/// A made key, and the one that it was made from; a root has none.
#[derive(Clone, Copy, Debug)]
pub struct TreeRow {
    pub key: Key,
    pub parent: Option<Key>,
}

/// A row for each key made by the setup and the first `count` entries of the journal, each once:
/// the roots, and then the children of grants in the order of the grants.
pub fn tree_rows(
    alloc: Global,
    setup: &Setup,
    journal: &Journal,
    count: usize,
) -> Result<Vec<TreeRow>, OutOfMemory>
    ensures keys { IfOk result (λ rows. map (λ r. r.key) rows.items
        ≡ made setup.now (take count journal.now.entries)) }
    ensures parents { IfOk result (λ rows. map (λ r. r.parent) rows.items
        ≡ map (parent_in (grants (take count journal.now.entries)))
        (made setup.now (take count journal.now.entries))) }
{
    let first = first_entries(alloc, journal, count)?;
    let granted = granted(alloc, first.as_slice())?;
    let made = made_keys(alloc, setup, &first)?;
    rows_of(alloc, &made, &granted)
}

// The journal of the first entries of a journal, at most that many.
fn first_entries(alloc: Global, journal: &Journal, count: usize) -> Result<Journal, OutOfMemory>
    ensures { IfOk result (λ first. first.entries ≡ take count journal.now.entries) }
{
    let mut first = Journal::new(alloc);
    let entries = journal.as_slice();
    for entry in &entries[..count.min(entries.len())] {
        first.room(1)?;
        first.push(*entry);
    }
    Ok(first)
}

// The grants of the entries, each a parent and its child.
fn granted(alloc: Global, entries: &[Entry]) -> Result<Vec<(Key, Key)>, OutOfMemory>
    ensures { IfOk result (λ granted. granted.items ≡ grants entries.now) }
{
    let mut granted = Vec::new(alloc);
    for entry in entries {
        push_grant(&mut granted, entry)?;
    }
    Ok(granted)
}

// A row for each of the keys, given these grants.
fn rows_of(alloc: Global, made: &[Key], granted: &[(Key, Key)]) -> Result<Vec<TreeRow>, OutOfMemory>
    ensures keys { IfOk result (λ rows. map (λ r. r.key) rows.items ≡ made.now) }
    ensures parents { IfOk result (λ rows. map (λ r. r.parent) rows.items
        ≡ map (parent_in granted.now) made.now) }
{
    let mut rows = Vec::new(alloc);
    for key in made {
        rows.push(TreeRow {
            key: *key,
            parent: parent_of(granted, key),
        })?;
    }
    Ok(rows)
}

// The parent of the key, by the first grant of it.
fn parent_of(granted: &[(Key, Key)], key: &Key) -> Option<Key>
    ensures { result ≡ parent_in granted.now key.now }
{
    let grant = granted.iter().find(|grant| same_key(&grant.1, key))?;
    Some(grant.0)
}
