// Sets of keys, by their packed words.
ghost use Rattle.std.specs.Prelude.{◌≡◌, ◌≤◌, length, IfOk};
ghost use Rattle.sem_key.specs.Region.{has_key};
ghost use Rattle.sem_grants.specs.Words.{HasWords};
ghost use Rattle.sem_audit.specs.Straying.{missing as missing_spec};

use indexmap::IndexSet;
use sem_grants::{add_word, has_word};
use sem_key::{Key, OutOfMemory};
use std::alloc::Global;

fn words_of(alloc: Global, keys: &[Key]) -> Result<IndexSet<u64>, OutOfMemory>
    ensures { IfOk result (λ words. HasWords words (has_key keys.now)) }
{
    let mut words = IndexSet::new(alloc);
    for key in keys {
        add_word(&mut words, *key)?;
    }
    Ok(words)
}

// How many of the keys are not among the others.
pub fn missing(alloc: Global, keys: &[Key], others: &[Key]) -> Result<usize, OutOfMemory>
    ensures missing { IfOk result (λ count. count ≡ missing_spec keys.now others.now) }
    ensures few { IfOk result (λ count. count ≤ length keys.now) }
{
    let words = words_of(alloc, others)?;
    let mut count = 0;
    for key in keys {
        if !has_word(&words, *key) {
            count += 1;
        }
    }
    Ok(count)
}
