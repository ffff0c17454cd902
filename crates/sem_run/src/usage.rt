// Which word of a command line is wrong, and what belongs there.
use sem_key::OutOfMemory;
use sem_text::number;
use sem_trace::read_key;
use std::alloc::Global;

// What a word must be: a number up to a limit, or a key.
#[derive(Clone, Copy, Debug)]
enum Wanted {
    Number {
        name: &'static str,
        least: u64,
        most: u64,
    },
    Key,
}

const SEED: Wanted = Wanted::Number {
    name: "SEED",
    least: 0,
    most: u64::MAX,
};

const COUNT: Wanted = Wanted::Number {
    name: "N",
    least: 0,
    most: u64::MAX,
};

const VPES: Wanted = Wanted::Number {
    name: "VPES",
    least: 1,
    most: 128,
};

const CALLS: Wanted = Wanted::Number {
    name: "CALLS",
    least: 0,
    most: 20_000,
};

// The most letters of a word that a message shows.
const LETTERS: usize = 40;

/// What is wrong with these words, which are no command.
pub fn usage_fault(alloc: Global, words: &[String]) -> Result<String, OutOfMemory> {
    let (name, given) = match words {
        [] => return String::from_str(alloc, "a command is missing"),
        [query, what, given @ ..] if query.as_str() == "query" => (what.as_str(), given),
        [name, given @ ..] => (name.as_str(), given),
    };
    let Some((takes, wanted)) = wanted_by(name, words) else {
        let name = shown(alloc, name)?;
        return format!(in alloc; "\"{name}\" is no command");
    };
    if given.len() != wanted.len() {
        return format!(in alloc; "{name} takes {takes}");
    }
    for (word, slot) in given.iter().zip(wanted.iter()) {
        if let Some(text) = word_fault(alloc, word.as_str(), *slot)? {
            return Ok(text);
        }
    }
    String::from_str(alloc, "VPES times CALLS is more than 20000")
}

// What the command of that name takes, in words and word by word; none if there is no such command.
fn wanted_by(name: &str, words: &[String]) -> Option<(&'static str, &'static [Wanted])> {
    let is_query = match words {
        [query, _, ..] => query.as_str() == "query",
        _ => false,
    };
    match (is_query, name) {
        (false, "run") | (false, "threads") | (false, "files") => Some(("one word, SEED", &[SEED])),
        (false, "check") | (false, "contents") => Some(("no word", &[])),
        (false, "gen") | (false, "soak") => {
            Some(("three words, SEED VPES CALLS", &[SEED, VPES, CALLS]))
        }
        (true, "holder") => Some(("two words, KEY N", &[Wanted::Key, COUNT])),
        (true, "path") => Some(("one word, KEY", &[Wanted::Key])),
        (true, "denied") => Some(("one word, N", &[COUNT])),
        _ => None,
    }
}

// What is wrong with a word, if anything is.
fn word_fault(alloc: Global, word: &str, wanted: Wanted) -> Result<Option<String>, OutOfMemory> {
    match wanted {
        Wanted::Number { name, least, most } => number_fault(alloc, word, name, (least, most)),
        Wanted::Key if read_key(word.as_bytes(), 2).is_ok() => Ok(None),
        Wanted::Key => {
            let word = shown(alloc, word)?;
            let text = format!(in alloc; "KEY: \"{word}\" is no key, as PE.VPE.KIND.NUMBER")?;
            Ok(Some(text))
        }
    }
}

// What is wrong with a word that should be a number of that range, if anything is.
fn number_fault(
    alloc: Global,
    word: &str,
    name: &str,
    range: (u64, u64),
) -> Result<Option<String>, OutOfMemory> {
    let (least, most) = range;
    match number(word.as_bytes(), u64::MAX) {
        Ok(value) if value < least || value > most => {
            let text = format!(in alloc; "{name} is {least} to {most}, and not {value}")?;
            Ok(Some(text))
        }
        Ok(_) => Ok(None),
        Err(_) => {
            let word = shown(alloc, word)?;
            let text = format!(in alloc; "{name}: \"{word}\" is no number from {least} to {most}")?;
            Ok(Some(text))
        }
    }
}

// The word; of a long one, the first letters.
fn shown(alloc: Global, word: &str) -> Result<String, OutOfMemory> {
    let mut text = String::new(alloc);
    for (place, letter) in word.chars().enumerate() {
        if place == LETTERS {
            text.push_str("..")?;
            return Ok(text);
        }
        text.push(letter)?;
    }
    Ok(text)
}
