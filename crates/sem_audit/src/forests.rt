// The forest of a journal, by one pass over its grants.
ghost use Rattle.std.specs.Prelude.{◌≡◌, filter, not, IfOk, IfSome, OnOk};
ghost use Rattle.std.specs.Option.{option_to_list};
ghost use Rattle.sem_key.specs.KeyName.{IsValidKey};
ghost use Rattle.sem_key.specs.Region.{has_key};
ghost use Rattle.sem_machine.specs.Journals.{forest, grants};
ghost use Rattle.sem_machine.specs.Schedules.{IsSchedule};
ghost use Rattle.sem_grants.specs.Words.{HasWords, has_word as has_word_spec};
ghost use Rattle.sem_audit.specs.Losing.{lost};

use indexmap::IndexSet;
use sem_grants::{add_word, cut_among, has_word, made_keys};
use sem_key::{Key, Keys, OutOfMemory};
use sem_msg::{Entry, Journal, Setup};
use std::alloc::Global;

// The made keys without an ancestor in the cut. A parent is made before its child, so one pass over
// the grants finds the others.
pub fn forest_keys(alloc: Global, setup: &Setup, journal: &Journal) -> Result<Vec<Key>, OutOfMemory>
    requires { IsSchedule setup.now journal.now.entries }
    ensures { IfOk result (λ keys. keys.items ≡ forest setup.now journal.now.entries) }
{
    let made = made_keys(alloc, setup, journal)?;
    let cut = cut_among(alloc, &made, journal)?;
    let lost = lost_words(alloc, &cut, journal)?;
    keys_without(alloc, &made, &lost)
}

// The keys whose words are not there.
fn keys_without(alloc: Global, keys: &[Key], words: &IndexSet<u64>) -> Result<Vec<Key>, OutOfMemory>
    ensures { IfOk result (λ left.
        left.items ≡ filter (λ k. not (has_word_spec words.now k)) keys.now) }
{
    let mut left = Vec::new(alloc);
    for key in keys {
        if !has_word(words, *key) {
            left.push(*key)?;
        }
    }
    Ok(left)
}

// The words of the cut keys, and of all keys made from them.
fn lost_words(alloc: Global, cut: &Keys, journal: &Journal) -> Result<IndexSet<u64>, OutOfMemory>
    ensures { IfOk result (λ words.
        HasWords words (lost (has_key cut.now.keys) (grants journal.now.entries))) }
{
    let mut words = cut_words(alloc, cut)?;
    for entry in journal.as_slice() {
        add_lost(&mut words, entry)?;
    }
    Ok(words)
}

fn cut_words(alloc: Global, cut: &Keys) -> Result<IndexSet<u64>, OutOfMemory>
    ensures { IfOk result (λ words. HasWords words (has_key cut.now.keys)) }
{
    let mut words = IndexSet::new(alloc);
    for word in cut.as_slice() {
        add_word(&mut words, word.key())?;
    }
    Ok(words)
}

// Adds the word of the child that the entry grants, if the parent's word is there.
fn add_lost(words: &mut IndexSet<u64>, entry: &Entry) -> Result<(), OutOfMemory>
    ensures added { OnOk result (HasWords words.new
        (lost (has_word_spec words.old) (option_to_list entry.now.grant))) }
    ensures valid { IfSome entry.now.grant (λ grant. IsValidKey grant.0) }
{
    if let Some((parent, child)) = entry.grant {
        if has_word(words, parent) {
            add_word(words, child)?;
        }
    }
    Ok(())
}
