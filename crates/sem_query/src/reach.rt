// The keys that a revoking entry reaches: from where it begins, by child links through unmarked
// capabilities of its kernel.
ghost use Rattle.std.specs.Prelude.{◌≡◌, ◌==◌, ◌||◌, [], ◌∷◌, ◌++◌, slice_get, OnOk};
ghost use Rattle.std.specs.Prelude.{IfOk};
ghost use Rattle.std.specs.Option.{option_to_list};
ghost use Rattle.sem_key.specs.KeyName.{IsValidKey, key_eq};
ghost use Rattle.sem_key.specs.Region.{has_key};
ghost use Rattle.sem_mark.specs.Walks.{is_unmarked_at as is_open_spec, children_at};
ghost use Rattle.sem_query.specs.Reaching.{AreReached, AreRevoked, held_of};
ghost use Rattle.sem_query.specs.Reaching.{roots_of as roots_of_spec, Lists};
ghost use Rattle.sem_query.specs.Reaching.{has_word as has_word_spec, HasWords};

use crate::entries::requested;
use sem_grants::ended_by;
use sem_kernel::Kernel;
use sem_key::{Key, Keys, OutOfMemory, pack};
use sem_msg::Entry;
use std::alloc::Global;
use std::collections::HashSet;

/// The keys that the entry reaches, each once, in the capabilities of its kernel before it.
pub fn reached_keys(alloc: Global, kernel: &Kernel, entry: &Entry) -> Result<Vec<Key>, OutOfMemory>
    ensures { IfOk result (λ keys. AreRevoked kernel.now.side.caps entry.now keys.items) }
{
    let roots = roots_of(alloc, kernel, entry)?;
    walk(alloc, kernel, &roots)
}

// Where the entry begins to revoke, as far as the kernel holds those keys.
fn roots_of(alloc: Global, kernel: &Kernel, entry: &Entry) -> Result<Vec<Key>, OutOfMemory>
    ensures { IfOk result (λ keys. keys.items ≡ roots_of_spec kernel.now.side.caps entry.now) }
{
    let mut roots = Vec::new(alloc);
    if let Some(key) = entry.cut {
        roots.push(key)?;
    }
    if let Some(key) = requested(entry) {
        roots.push(key)?;
    }
    if let Some(vpe) = ended_by(entry) {
        push_held_of(&mut roots, kernel, vpe)?;
    }
    Ok(roots)
}

// Appends the keys of the VPE that the kernel holds.
fn push_held_of(keys: &mut Vec<Key>, kernel: &Kernel, vpe: u16) -> Result<(), OutOfMemory>
    ensures { OnOk result (keys.new.items ≡ keys.old.items ++ held_of kernel.now.side.caps vpe) }
{
    for place in 0..kernel.capability_count() {
        push_held_at(keys, kernel, vpe, place)?;
    }
    Ok(())
}

// Appends the key that the kernel holds at that place, if it is one of the VPE.
fn push_held_at(
    keys: &mut Vec<Key>,
    kernel: &Kernel,
    vpe: u16,
    place: usize,
) -> Result<(), OutOfMemory>
    ensures { OnOk result (keys.new.items ≡ keys.old.items
        ++ held_of (option_to_list (slice_get kernel.now.side.caps place)) vpe) }
{
    if let Some(cap) = kernel.capability(place) {
        if cap.key.vpe == vpe {
            keys.push(cap.key)?;
        }
    }
    Ok(())
}

// Walks from the roots by child links through capabilities that are held unmarked.
fn walk(alloc: Global, kernel: &Kernel, roots: &[Key]) -> Result<Vec<Key>, OutOfMemory>
    ensures { IfOk result (λ keys. AreReached kernel.now.side.caps roots.now keys.items) }
{
    let mut keys = Vec::new(alloc);
    let mut words = HashSet::new(alloc);
    list_all(&mut keys, &mut words, kernel, roots)?;
    let mut at = 0;
    while at < keys.len() {
        let key = keys[at];
        list_children(&mut keys, &mut words, kernel, key)?;
        at += 1;
    }
    Ok(keys)
}

// Lists the children of the capability of that key.
fn list_children(
    keys: &mut Vec<Key>,
    words: &mut HashSet<u64>,
    kernel: &Kernel,
    parent: Key,
) -> Result<(), OutOfMemory>
    requires words { HasWords words.old (has_key keys.old.items) }
    ensures listed { OnOk result (Lists kernel.now.side.caps
        (children_at kernel.now.side.caps parent) keys.old.items keys.new.items) }
    ensures words { OnOk result (HasWords words.new (has_key keys.new.items)) }
{
    match kernel.held(parent) {
        Some(cap) => list_words(keys, words, kernel, &cap.children),
        None => Ok(()),
    }
}

// Lists those of the keys that the kernel holds unmarked, each once.
fn list_all(
    keys: &mut Vec<Key>,
    words: &mut HashSet<u64>,
    kernel: &Kernel,
    more: &[Key],
) -> Result<(), OutOfMemory>
    requires words { HasWords words.old (has_key keys.old.items) }
    ensures listed { OnOk result
        (Lists kernel.now.side.caps more.now keys.old.items keys.new.items) }
    ensures words { OnOk result (HasWords words.new (has_key keys.new.items)) }
{
    for key in more {
        list(keys, words, kernel, *key)?;
    }
    Ok(())
}

// Lists those of the child links that the kernel holds unmarked, each once.
fn list_words(
    keys: &mut Vec<Key>,
    words: &mut HashSet<u64>,
    kernel: &Kernel,
    more: &Keys,
) -> Result<(), OutOfMemory>
    requires words { HasWords words.old (has_key keys.old.items) }
    ensures listed { OnOk result
        (Lists kernel.now.side.caps more.now.keys keys.old.items keys.new.items) }
    ensures words { OnOk result (HasWords words.new (has_key keys.new.items)) }
{
    for word in more.as_slice() {
        list(keys, words, kernel, word.key())?;
    }
    Ok(())
}

// Lists the key, if the kernel holds it unmarked and it is not yet listed.
fn list(
    keys: &mut Vec<Key>,
    words: &mut HashSet<u64>,
    kernel: &Kernel,
    key: Key,
) -> Result<(), OutOfMemory>
    requires words { HasWords words.old (has_key keys.old.items) }
    ensures listed { OnOk result
        (Lists kernel.now.side.caps (key ∷ []) keys.old.items keys.new.items) }
    ensures words { OnOk result (HasWords words.new (has_key keys.new.items)) }
{
    if is_open(kernel, key) && !has_word(words, key) {
        add_word(words, key)?;
        keys.push(key)?;
    }
    Ok(())
}

// Whether the kernel holds the key unmarked.
fn is_open(kernel: &Kernel, key: Key) -> bool
    ensures { result ≡ is_open_spec kernel.now.side.caps key }
{
    match kernel.held(key) {
        Some(cap) => cap.mark.is_none(),
        None => false,
    }
}

fn has_word(words: &HashSet<u64>, key: Key) -> bool
    ensures word { result ≡ has_word_spec words.now key }
    ensures valid { IsValidKey key }
{
    words.contains(&pack(key))
}

fn add_word(words: &mut HashSet<u64>, key: Key) -> Result<(), OutOfMemory>
    ensures { OnOk result (HasWords words.new
        (λ k. has_word_spec words.old k || key_eq k key)) }
{
    words.insert(pack(key))?;
    Ok(())
}
