ghost use Rattle.std.specs.Prelude.{◌≡◌, ◌++◌, ◌||◌, [], nat_eq, filter, All};
ghost use Rattle.std.specs.Prelude.{IfOk, OnOk, IfSome};
ghost use Rattle.std.specs.Option.{option_to_list};
ghost use Rattle.sem_key.specs.KeyName.{KeyName, IsValidKey};
ghost use Rattle.sem_key.specs.KeyList.{key_set, with_key};
ghost use Rattle.sem_key.specs.Region.{has_key};
ghost use Rattle.indexmap.specs.IndexSet.{contains};
ghost use Rattle.sem_machine.specs.Journals.{cut_from, ends, has_ended, cut};
ghost use Rattle.sem_grants.specs.Backward.{clears, cleared_child, revoked, HasVpes};
ghost use Rattle.sem_grants.specs.Ending.{ended_by as ended_by_spec};
ghost use Rattle.sem_grants.specs.Words.{HasWords, has_word as has_word_spec};

use crate::makes::made_keys;
use crate::words::{add_word, has_word};
use indexmap::IndexSet;
use sem_key::{Key, Keys, OutOfMemory, pack};
use sem_msg::{Act, Call, Detail, Entry, Journal, Setup};
use std::alloc::Global;

/// The keys that revokes and clears cut off, and the keys of the VPEs that have ended; each once.
pub fn cut_keys(alloc: Global, setup: &Setup, journal: &Journal) -> Result<Keys, OutOfMemory>
    ensures { IfOk result (λ keys. keys.keys ≡ cut setup.now journal.now.entries) }
{
    let made = made_keys(alloc, setup, journal)?;
    cut_among(alloc, &made, journal)
}

// The cut, given the made keys.
pub fn cut_among(alloc: Global, made: &[Key], journal: &Journal) -> Result<Keys, OutOfMemory>
    ensures { IfOk result (λ keys. keys.keys ≡ key_set (cut_from [] journal.now.entries
        ++ filter (λ k. has_ended journal.now.entries k.vpe) made.now)) }
{
    let mut found = cut_off_keys(alloc, journal.as_slice())?;
    let ended = ended_vpes(alloc, journal.as_slice())?;
    push_ended(&mut found, made, &ended)?;
    set_of(alloc, found)
}

// The keys that the entries cut off. A clear takes the children that were granted by then, so this
// goes from the last entry to the first, and meets a grant after the clears that follow it.
fn cut_off_keys(alloc: Global, entries: &[Entry]) -> Result<Vec<Key>, OutOfMemory>
    ensures { IfOk result (λ found. (k : KeyName) →
        has_key found.items k ≡ has_key (cut_from [] entries.now) k) }
{
    let mut found = Vec::new(alloc);
    let mut cleared = IndexSet::new(alloc);
    for at in (0..entries.len()).rev() {
        let entry = &entries[at];
        push_cleared_child(&mut found, &cleared, entry)?;
        push_revoked(&mut found, entry)?;
        add_cleared(&mut cleared, entry)?;
    }
    Ok(found)
}

// Appends the child that the entry grants, if the word of its parent is there.
fn push_cleared_child(
    found: &mut Vec<Key>,
    cleared: &IndexSet<u64>,
    entry: &Entry,
) -> Result<(), OutOfMemory>
    ensures found { OnOk result (found.new.items
        ≡ found.old.items ++ cleared_child (has_word_spec cleared.now) entry.now.grant) }
    ensures valid { IfSome entry.now.grant (λ grant. IsValidKey grant.0) }
{
    if let Some((parent, child)) = entry.grant {
        if has_word(cleared, parent) {
            found.push(child)?;
        }
    }
    Ok(())
}

// Appends the key that the entry revokes, if it revokes one.
fn push_revoked(found: &mut Vec<Key>, entry: &Entry) -> Result<(), OutOfMemory>
    ensures { OnOk result (found.new.items
        ≡ found.old.items ++ revoked entry.now.detail entry.now.cut) }
{
    if let (
        Detail::Called {
            call: Call::Revoke { .. },
            ..
        },
        Some(key),
    ) = (entry.detail, entry.cut)
    {
        found.push(key)?;
    }
    Ok(())
}

// Adds the word of the key that the entry clears, if it clears one.
fn add_cleared(cleared: &mut IndexSet<u64>, entry: &Entry) -> Result<(), OutOfMemory>
    ensures { OnOk result (HasWords cleared.new
        (λ k. has_word_spec cleared.old k || clears entry.now.detail entry.now.cut k)) }
{
    if let (
        Detail::Called {
            call: Call::Clear { .. },
            ..
        },
        Some(key),
    ) = (entry.detail, entry.cut)
    {
        add_word(cleared, key)?;
    }
    Ok(())
}

// Appends the grant of the entry, if there is one.
pub fn push_grant(granted: &mut Vec<(Key, Key)>, entry: &Entry) -> Result<(), OutOfMemory>
    ensures { OnOk result (granted.new.items
        ≡ granted.old.items ++ option_to_list entry.now.grant) }
{
    if let Some(grant) = entry.grant {
        granted.push(grant)?;
    }
    Ok(())
}

// Appends those of the keys that belong to one of the VPEs.
fn push_ended(found: &mut Vec<Key>, made: &[Key], ended: &IndexSet<u16>) -> Result<(), OutOfMemory>
    ensures { OnOk result (found.new.items ≡ found.old.items
        ++ filter (λ k. contains nat_eq ended.now k.vpe) made.now) }
{
    for key in made {
        if ended.contains(&key.vpe) {
            found.push(*key)?;
        }
    }
    Ok(())
}

// The keys, each once. In rising order each goes to the end of those before it.
fn set_of(alloc: Global, mut found: Vec<Key>) -> Result<Keys, OutOfMemory>
    ensures keys { IfOk result (λ keys. keys.keys ≡ key_set found.items) }
    ensures valid { OnOk result (All IsValidKey found.items) }
{
    found.sort_unstable_by_key(|key| pack(*key));
    let mut keys = Keys::new(alloc);
    for key in &found {
        add(&mut keys, *key)?;
    }
    Ok(keys)
}

// Adds the key, unless it is there.
fn add(keys: &mut Keys, key: Key) -> Result<(), OutOfMemory>
    ensures keys { OnOk result (keys.new.keys ≡ with_key keys.old.keys key) }
    ensures valid { OnOk result (IsValidKey key) }
{
    keys.room(1)?;
    keys.insert(key);
    Ok(())
}

// The VPEs that end in the entries.
fn ended_vpes(alloc: Global, entries: &[Entry]) -> Result<IndexSet<u16>, OutOfMemory>
    ensures { IfOk result (λ ended. HasVpes ended (has_ended entries.now)) }
{
    let mut ended = IndexSet::new(alloc);
    for entry in entries {
        add_ended(&mut ended, entry)?;
    }
    Ok(ended)
}

// Adds the VPE that ends by the entry, if one does.
fn add_ended(ended: &mut IndexSet<u16>, entry: &Entry) -> Result<(), OutOfMemory>
    ensures { OnOk result (HasVpes ended.new (λ v. contains nat_eq ended.old v
        || ends v entry.now.event.act entry.now.detail)) }
{
    if let Some(vpe) = ended_by(entry) {
        ended.insert(vpe)?;
    }
    Ok(())
}

/// The VPE that ends by the entry, if one does.
pub fn ended_by(entry: &Entry) -> Option<u16>
    ensures { result ≡ ended_by_spec entry.now.event.act entry.now.detail }
{
    match (entry.event.act, entry.detail) {
        (Act::Kill { vpe }, _) => Some(vpe),
        (
            Act::Call { vpe },
            Detail::Called {
                call: Call::Exit,
                ..
            },
        ) => Some(vpe),
        _ => None,
    }
}
