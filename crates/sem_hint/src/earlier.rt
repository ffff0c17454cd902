// What an earlier line of a trace or of file commands says already, and what no earlier line
// declares.
use crate::OutOfMemory;
use crate::words::{Word, words_of};
use std::alloc::Global;

/// The number of the earlier line that says the same as these words in the word at the place.
pub fn twice(
    alloc: Global,
    earlier: &[&[u8]],
    words: &[Word],
    place: usize,
) -> Result<Option<usize>, OutOfMemory> {
    for (at, line) in earlier.iter().enumerate() {
        let others = words_of(alloc, line)?;
        if agree(words, others.as_slice(), place) {
            return Ok(Some(at.saturating_add(1)));
        }
    }
    Ok(None)
}

// Whether both say the same thing, of which the word at the place is the last.
fn agree(words: &[Word], others: &[Word], place: usize) -> bool {
    let same = |place: usize| is_same(words.get(place), others.get(place));
    let (Some(name), Some(other)) = (words.first(), others.first()) else {
        return false;
    };
    match (name.text, place) {
        (b"root" | b"service", 2) => {
            matches!(other.text, b"root" | b"service") && same(1) && same(2)
        }
        (b"offer" | b"deny", _) => name.text == other.text && same(1) && same(place),
        _ => name.text == other.text && same(place),
    }
}

// Whether both words are there and are the same.
fn is_same(one: Option<&Word>, other: Option<&Word>) -> bool {
    match (one, other) {
        (Some(one), Some(other)) => one.text == other.text,
        _ => false,
    }
}

/// What a line of that name names that an earlier line declares.
pub fn named(name: &[u8]) -> &'static str {
    match name {
        b"vpe" => "PE",
        b"offer" => "service",
        _ => "VPE",
    }
}
