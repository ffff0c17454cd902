ghost use Rattle.std.specs.Prelude.{◌≡◌, ◌++◌, map, length, OnOk, OnErr};
ghost use Rattle.std.specs.Option.{option_to_list};
ghost use Rattle.sem_key.specs.Region.{has_key as has_key_spec};
ghost use Rattle.sem_text.specs.Lines.{line, text};
ghost use Rattle.sem_machine.specs.Journals.{parent_in, grants, ancestry_in};
ghost use Rattle.sem_machine.specs.Schedules.{IsSchedule};
ghost use Rattle.sem_query.specs.Paths.{cut_word as cut_word_spec, step_words, path as path_spec};

use sem_grants::{cut_keys, made_keys};
use sem_key::{Key, Keys, OutOfMemory, same_key};
use sem_msg::{Entry, Journal, Setup};
use sem_trace::{push_key_word, push_word};
use std::alloc::Global;

/// Appends the path of the key: a line for each key from it up to its root, which says whether that
/// key was cut. If the key was never made, the line is `none`. If memory is refused, `out` is as
/// before.
pub fn path(
    alloc: Global,
    setup: &Setup,
    journal: &Journal,
    key: Key,
    out: &mut Vec<u8>,
) -> Result<(), OutOfMemory>
    requires { IsSchedule setup.now journal.now.entries }
    ensures ok { OnOk result
        (out.new.items ≡ out.old.items ++ path_spec setup.now journal.now.entries key) }
    ensures err { OnErr result (out.new.items ≡ out.old.items) }
{
    let mut lines = Vec::new(alloc);
    push_path(alloc, &mut lines, setup, journal, key)?;
    out.extend_from_slice(&lines)
}

// Appends the path of the key. If memory is refused, it may have appended a part.
fn push_path(
    alloc: Global,
    out: &mut Vec<u8>,
    setup: &Setup,
    journal: &Journal,
    key: Key,
) -> Result<(), OutOfMemory>
    ensures { OnOk result
        (out.new.items ≡ out.old.items ++ path_spec setup.now journal.now.entries key) }
{
    let made = made_keys(alloc, setup, journal)?;
    if !has_key(&made, key) {
        return out.extend_from_slice(b"none\n");
    }
    let cut = cut_keys(alloc, setup, journal)?;
    push_line(out, &cut, journal, key)
}

// Appends a line for each key from this one up to its root.
fn push_line(out: &mut Vec<u8>, cut: &Keys, journal: &Journal, key: Key) -> Result<(), OutOfMemory>
    ensures { OnOk result (out.new.items ≡ out.old.items
        ++ text (map (step_words cut.now.keys)
        (ancestry_in (length journal.now.entries) (grants journal.now.entries) key))) }
{
    push_step(out, cut, key)?;
    let mut last = key;
    for _ in 0..journal.len() {
        let Some(parent) = parent_of(journal, last) else {
            return Ok(());
        };
        push_step(out, cut, parent)?;
        last = parent;
    }
    Ok(())
}

// Appends the line of one key.
fn push_step(out: &mut Vec<u8>, cut: &Keys, key: Key) -> Result<(), OutOfMemory>
    ensures { OnOk result (out.new.items ≡ out.old.items ++ line (step_words cut.now.keys key)) }
{
    out.extend_from_slice(b"key")?;
    push_key_word(out, &key)?;
    push_word(out, cut_word(cut.has(key)))?;
    Ok(out.push(b'\n')?)
}

// The word that says whether a key was cut.
fn cut_word(is_cut: bool) -> &'static [u8]
    ensures { result.now ≡ cut_word_spec is_cut }
{
    if is_cut { b"cut" } else { b"kept" }
}

// Whether the key is among these.
fn has_key(keys: &[Key], key: Key) -> bool
    ensures { result ≡ has_key_spec keys.now key }
{
    keys.iter().any(|other| same_key(&key, other))
}

// The parent of the key, by the first grant of it.
fn parent_of(journal: &Journal, key: Key) -> Option<Key>
    ensures { result ≡ parent_in (grants journal.now.entries) key }
{
    for entry in journal.as_slice() {
        if let Some(parent) = parent_by(entry, key) {
            return Some(parent);
        }
    }
    None
}

// The parent of the key, if the entry grants the key.
fn parent_by(entry: &Entry, key: Key) -> Option<Key>
    ensures { result ≡ parent_in (option_to_list entry.now.grant) key }
{
    match entry.grant {
        Some((parent, child)) if same_key(&child, &key) => Some(parent),
        _ => None,
    }
}
