// What belongs in a place of a line.
use crate::OutOfMemory;
use crate::forms::{Choice, Slot, choice_words, may_follow, push_following};
use crate::places::{Limits, Setting};
use crate::words::{Word, text_of};
use sem_text::number;
use sem_trace::Slot as Number;
use std::alloc::Global;

/// What belongs in the place of a line with these words, of which those before the place stand
/// right; none if nothing belongs there.
pub fn wanted_at(
    alloc: Global,
    setting: &Setting,
    words: &[Word],
    place: usize,
) -> Result<Option<Slot>, OutOfMemory> {
    let mut open = reversed(alloc, setting.slots)?;
    let mut more = None;
    for word in words.iter().take(place) {
        let Some(slot) = next_slot(&mut open, more) else {
            return Ok(None);
        };
        if let Slot::Choice(choice) = slot {
            let text = text_of(alloc, word.text)?;
            push_following(&mut open, choice, text.as_str())?;
            more = after(choice, text.as_str(), more);
        }
    }
    Ok(next_slot(&mut open, more))
}

// The next open slot, or the choice that may follow the form.
fn next_slot(open: &mut Vec<Slot>, more: Option<Choice>) -> Option<Slot> {
    match (open.pop(), more) {
        (None, Some(choice)) => Some(Slot::Choice(choice)),
        (slot, _) => slot,
    }
}

// What may follow the open form, after that word of a choice.
fn after(choice: Choice, word: &str, more: Option<Choice>) -> Option<Choice> {
    match choice {
        Choice::Event | Choice::Outcome | Choice::AfterGrant | Choice::AfterCut => {
            may_follow(choice, word)
        }
        _ => more,
    }
}

// The slots, the last first.
fn reversed(alloc: Global, slots: &[Slot]) -> Result<Vec<Slot>, OutOfMemory> {
    let mut open = Vec::new(alloc);
    for slot in slots.iter().rev() {
        open.push(*slot)?;
    }
    Ok(open)
}

/// Whether the word is one that the slot names, or a number of its range, which no earlier line
/// settles.
pub fn is_named(
    alloc: Global,
    slot: Slot,
    word: &[u8],
    limits: &Limits,
) -> Result<bool, OutOfMemory> {
    match slot {
        Slot::Fixed(name) => Ok(word == name.as_bytes()),
        Slot::Within(_, least, most) => Ok(is_between(word, least, most)),
        Slot::Choice(choice) => {
            let words = choice_words(alloc, choice)?;
            Ok(words.iter().any(|name| word == name.as_bytes()))
        }
        Slot::Number(Number::Vpe | Number::Pe | Number::KernelCount | Number::Kernel) => Ok(false),
        Slot::Number(number) => {
            let range = number.range(limits.version, limits.kernels);
            Ok(is_between(word, range.least, range.most))
        }
        Slot::Key(_) | Slot::Place => Ok(false),
    }
}

// Whether the word is a number from `least` to `most`.
fn is_between(word: &[u8], least: u64, most: u64) -> bool {
    match number(word, most) {
        Ok(value) => least <= value,
        Err(_) => false,
    }
}
