// Outcomes as text.
use crate::data::{CallEnd, HeldKey, Outcome, Outcomes};
use sem_key::OutOfMemory;
use std::alloc::Global;

/// The columns before the code of a call.
const CALLS: usize = 44;

/// The outcomes as text: what all of them share, and then what each has alone.
pub fn outcomes_as_text(alloc: Global, told: &Outcomes) -> Result<String, OutOfMemory> {
    let mut out = String::new(alloc);
    push_head(alloc, &mut out, told)?;
    out.push_str("\nin each of them\n")?;
    push_shared(alloc, &mut out, told)?;
    for (number, outcome) in told.outcomes.iter().enumerate() {
        push_outcome(alloc, &mut out, told, number, outcome)?;
    }
    Ok(out)
}

// Appends how many outcomes there are, and how they were found.
fn push_head(alloc: Global, out: &mut String, told: &Outcomes) -> Result<(), OutOfMemory> {
    let count = told.outcomes.len();
    let name = if count == 1 { "outcome" } else { "outcomes" };
    let text = match told.histories {
        Some(histories) => format!(in alloc;
            "{count} {name}, and there is no other: all {histories} histories were searched\n"
        )?,
        None => {
            let seeds = total(told);
            format!(in alloc; "{count} {name} by {seeds} seeds; there may be others\n")?
        }
    };
    out.push_str(text.as_str())
}

// How many seeds were run, or how many complete histories there are.
fn total(told: &Outcomes) -> u64 {
    let mut sum = 0u64;
    for outcome in told.outcomes.as_slice() {
        sum = sum.saturating_add(outcome.count);
    }
    sum
}

// Appends what all outcomes share.
fn push_shared(alloc: Global, out: &mut String, told: &Outcomes) -> Result<(), OutOfMemory> {
    let Some(first) = told.outcomes.first() else {
        return Ok(());
    };
    for (at, end) in first.calls.iter().enumerate() {
        if is_shared_call(told, at, end) {
            push_call(alloc, out, end)?;
        }
    }
    for held in first.held.as_slice() {
        if is_held_in_all(told, held) {
            push_held(alloc, out, "holds", held)?;
        }
    }
    Ok(())
}

// Whether the call at that place ends the same way in all outcomes.
fn is_shared_call(told: &Outcomes, at: usize, end: &CallEnd) -> bool {
    told.outcomes
        .iter()
        .all(|outcome| outcome.calls.get(at) == Some(end))
}

// Whether the capability is held in all outcomes.
fn is_held_in_all(told: &Outcomes, held: &HeldKey) -> bool {
    told.outcomes
        .iter()
        .all(|outcome| outcome.held.contains(held))
}

// Appends what only the outcome of that number has.
fn push_outcome(
    alloc: Global,
    out: &mut String,
    told: &Outcomes,
    number: usize,
    outcome: &Outcome,
) -> Result<(), OutOfMemory> {
    push_share(alloc, out, told, number, outcome)?;
    for (at, end) in outcome.calls.iter().enumerate() {
        if !is_shared_call(told, at, end) {
            push_call(alloc, out, end)?;
        }
    }
    for held in outcome.held.as_slice() {
        if !is_held_in_all(told, held) {
            push_held(alloc, out, "holds", held)?;
        }
    }
    push_missing(alloc, out, told, number, outcome)
}

// Appends how many runs end with it, and which one shows it.
fn push_share(
    alloc: Global,
    out: &mut String,
    told: &Outcomes,
    number: usize,
    outcome: &Outcome,
) -> Result<(), OutOfMemory> {
    let (count, all) = (outcome.count, total(told));
    let share = percent(alloc, count, all)?;
    let text = match outcome.seed {
        Some(seed) => format!(in alloc;
            "\noutcome {number}: {count} of {all} seeds, {share}; the first is {seed}\n"
        )?,
        None => format!(in alloc;
            "\noutcome {number}: {count} of {all} complete histories, {share}\n"
        )?,
    };
    out.push_str(text.as_str())
}

// The share in percent, with one digit after the point, rounded down.
fn percent(alloc: Global, count: u64, all: u64) -> Result<String, OutOfMemory> {
    let tenths = u128::from(count).saturating_mul(1000) / u128::from(all.max(1));
    let tenths = tenths.min(1000) as u64;
    let (whole, tenth) = (tenths / 10, tenths % 10);
    format!(in alloc; "{whole}.{tenth}%")
}

// Appends a line for each capability that an earlier outcome holds and this one does not.
fn push_missing(
    alloc: Global,
    out: &mut String,
    told: &Outcomes,
    number: usize,
    outcome: &Outcome,
) -> Result<(), OutOfMemory> {
    let mut missing: Vec<&HeldKey> = Vec::new(alloc);
    for (at, other) in told.outcomes.iter().enumerate() {
        for held in other.held.as_slice() {
            if at != number && !outcome.held.contains(held) && !missing.contains(&held) {
                missing.push(held)?;
            }
        }
    }
    for held in missing {
        push_held(alloc, out, "gone", held)?;
    }
    Ok(())
}

// Appends how a call ended.
fn push_call(alloc: Global, out: &mut String, end: &CallEnd) -> Result<(), OutOfMemory> {
    let (vpe, call, words) = (end.vpe, end.call, end.words.as_str());
    let text = format!(in alloc; "  v{vpe} call {call}: {words}")?;
    out.push_str(text.as_str())?;
    for _ in text.len()..CALLS {
        out.push(' ')?;
    }
    out.push(' ')?;
    match &end.code {
        Some(code) => out.push_str(code.as_str())?,
        None => out.push_str("no reply")?,
    }
    out.push('\n')
}

// Appends a held or a missing capability.
fn push_held(
    alloc: Global,
    out: &mut String,
    word: &str,
    held: &HeldKey,
) -> Result<(), OutOfMemory> {
    let (key, selector) = (held.key.as_str(), held.selector);
    let text = format!(in alloc; "  {word} {key} at selector {selector}\n")?;
    out.push_str(text.as_str())
}
