ghost use Rattle.std.specs.Prelude.{◌≡◌, [], ◌∷◌, map, option_map, string_bytes};
ghost use Rattle.sem_cli.specs.declared.forms.Command.TheVariants.{Ask};
ghost use Rattle.sem_cli.specs.Commands.{command_of, question_of, number_to as number_to_spec};
ghost use Rattle.sem_cli.specs.Commands.{seed_of as seed_of_spec, load_of as load_of_spec};
ghost use Rattle.sem_cli.specs.Commands.{key_named as key_of_spec};

use crate::forms::{Command, Load, Question};
use sem_key::Key;
use sem_text::number;
use sem_trace::read_key;

/// The command of the words, if they are one. Takes no memory.
pub fn command(words: &[String]) -> Option<Command>
    ensures { result ≡ command_of (map string_bytes words.now) }
{
    match words {
        [] => None,
        [name] => plain(name.as_str()),
        [name, seed] => seeded(name.as_str(), seed.as_str()),
        [name, what, word] => asking(name.as_str(), what.as_str(), word.as_str()),
        [name, seed, vpes, calls] => {
            loaded(name.as_str(), seed.as_str(), vpes.as_str(), calls.as_str())
        }
        _ => None,
    }
}

// The command of a name alone.
fn plain(name: &str) -> Option<Command>
    ensures { result ≡ command_of (name.now ∷ []) }
{
    match name {
        "check" => Some(Command::Ask {
            question: Question::Check,
        }),
        "contents" => Some(Command::Ask {
            question: Question::Contents,
        }),
        _ => None,
    }
}

// The command of a name and a seed.
fn seeded(name: &str, seed: &str) -> Option<Command>
    ensures { result ≡ command_of (name.now ∷ seed.now ∷ []) }
{
    let seed = seed_of(seed)?;
    match name {
        "run" => Some(Command::Run { seed }),
        "threads" => Some(Command::Threads { seed }),
        "files" => Some(Command::Files { seed }),
        _ => None,
    }
}

// The command of a name, what is asked, and what it is asked of.
fn asking(name: &str, what: &str, word: &str) -> Option<Command>
    ensures { result ≡ command_of (name.now ∷ what.now ∷ word.now ∷ []) }
{
    if name != "query" {
        return None;
    }
    let question = match what {
        "path" => Question::Path { key: key_of(word)? },
        "denied" => Question::Denied {
            entry: seed_of(word)?,
        },
        _ => return None,
    };
    Some(Command::Ask { question })
}

// The command that asks where a key is.
fn asking_holder(what: &str, key: &str, count: &str) -> Option<Command>
    ensures { result ≡ option_map Ask (question_of (what.now ∷ key.now ∷ count.now ∷ [])) }
{
    if what != "holder" {
        return None;
    }
    let key = key_of(key)?;
    let count = seed_of(count)?;
    Some(Command::Ask {
        question: Question::Holder { key, count },
    })
}

// The command of a name and a load, or of a question about a key.
fn loaded(name: &str, seed: &str, vpes: &str, calls: &str) -> Option<Command>
    ensures { result ≡ command_of (name.now ∷ seed.now ∷ vpes.now ∷ calls.now ∷ []) }
{
    if name == "query" {
        return asking_holder(seed, vpes, calls);
    }
    let Load { seed, vpes, calls } = load_of(seed, vpes, calls)?;
    match name {
        "gen" => Some(Command::Generate { seed, vpes, calls }),
        "soak" => Some(Command::Soak { seed, vpes, calls }),
        _ => None,
    }
}

fn key_of(word: &str) -> Option<Key>
    ensures { result ≡ key_of_spec word.now }
{
    read_key(word.as_bytes(), 2).ok()
}

// The seed, or the number of entries, of a word.
fn seed_of(word: &str) -> Option<u64>
    ensures { result ≡ seed_of_spec word.now }
{
    number(word.as_bytes(), u64::MAX).ok()
}

// The load of three words.
fn load_of(seed: &str, vpes: &str, calls: &str) -> Option<Load>
    ensures { result ≡ load_of_spec seed.now vpes.now calls.now }
{
    let seed = seed_of(seed)?;
    let vpes = number_to(128, vpes)?;
    let calls = number_to(20000, calls)?;
    if vpes >= 1 && vpes * calls <= 20000 {
        Some(Load { seed, vpes, calls })
    } else {
        None
    }
}

// The number of a word, if it is at most `most`.
fn number_to(most: u32, word: &str) -> Option<u32>
    ensures { result ≡ number_to_spec most word.now }
{
    let count = number(word.as_bytes(), u64::from(most)).ok()?;
    u32::try_from(count).ok()
}
