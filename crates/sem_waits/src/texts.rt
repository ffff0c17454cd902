// Waits as text.
use crate::waits::Wait;
use sem_journal::push_entry_words;
use sem_key::OutOfMemory;
use sem_msg::{Call, Entry};
use sem_trace::push_call;
use std::alloc::Global;

/// The calls that waited, each with the entries that it waited for; only those of one VPE, and of
/// one number, if they are named.
pub fn waits_as_text(
    alloc: Global,
    entries: &[Entry],
    waits: &[Wait],
    vpe: Option<u64>,
    call: Option<u64>,
) -> Result<String, OutOfMemory> {
    let mut out = String::new(alloc);
    for wait in waits {
        if is_asked_for(wait, vpe, call) {
            push_wait(alloc, &mut out, entries, wait)?;
        }
    }
    if out.is_empty() {
        out.push_str("no such call waited\n")?;
    }
    Ok(out)
}

// Whether the call waited, and is one of the named ones.
fn is_asked_for(wait: &Wait, vpe: Option<u64>, call: Option<u64>) -> bool {
    wait.end != Some(wait.begin)
        && vpe.is_none_or(|it| it == u64::from(wait.vpe))
        && call.is_none_or(|it| it == u64::from(wait.index))
}

// Appends a wait with its entries.
fn push_wait(
    alloc: Global,
    out: &mut String,
    entries: &[Entry],
    wait: &Wait,
) -> Result<(), OutOfMemory> {
    push_head(alloc, out, wait)?;
    push_entry(alloc, out, entries, wait.begin)?;
    for number in wait.between.as_slice() {
        push_entry(alloc, out, entries, *number)?;
    }
    match wait.end {
        Some(number) => push_entry(alloc, out, entries, number),
        None => Ok(()),
    }
}

// Appends which call waited, and for how long.
fn push_head(alloc: Global, out: &mut String, wait: &Wait) -> Result<(), OutOfMemory> {
    let (vpe, index) = (wait.vpe, wait.index);
    let words = call_words(alloc, &wait.call)?;
    let text = match wait.end {
        Some(end) => {
            let count = end.saturating_sub(wait.begin);
            format!(in alloc; "v{vpe} call {index}: {words}: answered {count} entries later\n")?
        }
        None => format!(in alloc; "v{vpe} call {index}: {words}: not answered\n")?,
    };
    out.push_str(text.as_str())
}

/// The words of the call.
pub fn call_words(alloc: Global, call: &Call) -> Result<String, OutOfMemory> {
    let mut words = Vec::new(alloc);
    push_call(&mut words, call)?;
    match words.as_slice() {
        [b' ', rest @ ..] => as_text(alloc, rest),
        all => as_text(alloc, all),
    }
}

// Appends the entry of that number.
fn push_entry(
    alloc: Global,
    out: &mut String,
    entries: &[Entry],
    number: usize,
) -> Result<(), OutOfMemory> {
    let Some(entry) = entries.get(number) else {
        return Ok(());
    };
    let mut words = Vec::new(alloc);
    push_entry_words(&mut words, entry)?;
    let words = as_text(alloc, words.as_slice())?;
    let text = format!(in alloc; "{number:>6}  {words}\n")?;
    out.push_str(text.as_str())
}

// The printed bytes, which are all ASCII, as a text.
fn as_text(alloc: Global, bytes: &[u8]) -> Result<String, OutOfMemory> {
    let mut text = String::new(alloc);
    for byte in bytes {
        text.push(char::from(*byte))?;
    }
    Ok(text)
}
