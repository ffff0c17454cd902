// What the entries that fit in no order wait for.
use crate::entered::replies_before;
use crate::logs::Logs;
use crate::orders::Order;
use sem_journal::push_entry_words;
use sem_key::OutOfMemory;
use sem_msg::{Act, Entry};
use std::alloc::Global;

/// How many entries fit in no order, and for each kernel the first of them, with its line and what
/// it waits for.
pub fn stuck_text(alloc: Global, logs: &Logs, order: &Order) -> Result<String, OutOfMemory> {
    let all = logs.journal.len();
    let left = all.saturating_sub(order.journal.len());
    let mut out = format!(in alloc;
        "the logs fit in no order: {left} of {all} entries are left\n"
    )?;
    for place in order.left.firsts().iter().copied().flatten() {
        if let Some(entry) = logs.journal.as_slice().get(place) {
            push_stuck(alloc, &mut out, logs, order, (place, entry))?;
        }
    }
    Ok(out)
}

// Appends the line of an entry at that place that cannot come next, and what it waits for.
fn push_stuck(
    alloc: Global,
    out: &mut String,
    logs: &Logs,
    order: &Order,
    stuck: (usize, &Entry),
) -> Result<(), OutOfMemory> {
    let (place, entry) = stuck;
    let line = line_of(logs, place);
    out.push_str(format!(in alloc; "line {line}: \"")?.as_str())?;
    let mut words = Vec::new(alloc);
    push_entry_words(&mut words, entry)?;
    for byte in words.as_slice() {
        out.push(char::from(*byte))?;
    }
    out.push_str("\" waits for ")?;
    out.push_str(wanted_text(alloc, logs, order, entry)?.as_str())?;
    out.push('\n')
}

// The number of the line of the entry at that place.
fn line_of(logs: &Logs, place: usize) -> u64 {
    logs.lines.get(place).copied().unwrap_or(0)
}

// What the entry waits for.
fn wanted_text(
    alloc: Global,
    logs: &Logs,
    order: &Order,
    entry: &Entry,
) -> Result<String, OutOfMemory> {
    let kernel = entry.event.kernel;
    match entry.event.act {
        Act::Fetch { from } => match line_with(logs, order, from, Act::Flush { to: kernel }) {
            Some(line) => {
                format!(in alloc; "the message that kernel {from} sends in line {line}")
            }
            None => format!(in alloc; "a message of kernel {from} that no log sends"),
        },
        Act::Flush { to } => match line_with(logs, order, to, Act::Fetch { from: kernel }) {
            Some(line) => {
                format!(in alloc; "room on the link to kernel {to}, which line {line} makes")
            }
            None => format!(in alloc; "room on the link to kernel {to}, which no log makes"),
        },
        Act::Kill { vpe } => {
            let (wanted, count) = (replies_before(&logs.setup, vpe), order.entered.replies);
            format!(in alloc;
                "more replies: the trace kills VPE {vpe} after {wanted}, and so far it had {count}"
            )
        }
        _ => String::from_str(alloc, "nothing"),
    }
}

// The line of the first entry with that act among those left of a kernel.
fn line_with(logs: &Logs, order: &Order, kernel: u32, act: Act) -> Option<u64> {
    let entries = logs.journal.as_slice();
    let mut next = order.left.first_of(kernel);
    for _ in 0..entries.len() {
        let place = next?;
        match entries.get(place) {
            Some(entry) if entry.event.act == act => return Some(line_of(logs, place)),
            _ => next = order.left.behind(place),
        }
    }
    None
}
