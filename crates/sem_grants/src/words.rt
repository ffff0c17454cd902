// Sets of keys, by their packed words.
ghost use Rattle.std.specs.Prelude.{◌≡◌, ◌||◌, OnOk};
ghost use Rattle.sem_key.specs.KeyName.{IsValidKey, key_eq};
ghost use Rattle.sem_grants.specs.Words.{HasWords, has_word as has_word_spec};

use indexmap::IndexSet;
use sem_key::{Key, OutOfMemory, pack};

/// Whether the set has the packed word of the key.
pub fn has_word(words: &IndexSet<u64>, key: Key) -> bool
    ensures word { result ≡ has_word_spec words.now key }
    ensures valid { IsValidKey key }
{
    words.contains(&pack(key))
}

/// Adds the packed word of the key, unless it is there.
pub fn add_word(words: &mut IndexSet<u64>, key: Key) -> Result<(), OutOfMemory>
    ensures added { OnOk result (HasWords words.new
        (λ k. has_word_spec words.old k || key_eq k key)) }
    ensures valid { IsValidKey key }
{
    words.insert(pack(key))?;
    Ok(())
}
