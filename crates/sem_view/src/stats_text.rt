// Counts as a table. If memory is refused, each of these functions may have appended a part.
use crate::stats::{CallCost, RevokeTime, Stats};
use sem_chart::message_names;
use sem_hint::key_text;
use sem_key::OutOfMemory;
use sem_names::{CODES, EVENTS};
use sem_waits::call_words;
use std::alloc::Global;

/// The columns before the numbers.
const NAMES: usize = 48;

/// The columns of the numbers.
const NUMBERS: usize = 9;

/// The counts as a table.
pub fn stats_as_text(alloc: Global, stats: &Stats) -> Result<String, OutOfMemory> {
    let mut out = String::new(alloc);
    push_count(alloc, &mut out, "entries", stats.entries)?;
    push_counts(alloc, &mut out, &EVENTS, stats.events.as_slice())?;
    let sent = total(stats.messages.as_slice());
    push_count(alloc, &mut out, "messages", sent)?;
    let messages = message_names(alloc)?;
    push_counts(
        alloc,
        &mut out,
        messages.as_slice(),
        stats.messages.as_slice(),
    )?;
    push_links(alloc, &mut out, stats)?;
    let replies = total(stats.codes.as_slice());
    push_count(alloc, &mut out, "replies", replies)?;
    push_counts(alloc, &mut out, &CODES, stats.codes.as_slice())?;
    push_asks(alloc, &mut out, stats)?;
    push_revokes(alloc, &mut out, stats)?;
    push_costs(alloc, &mut out, stats)?;
    push_chain(alloc, &mut out, stats)?;
    Ok(out)
}

/// The sum of the numbers, at most the greatest number.
pub fn total(counts: &[usize]) -> usize {
    let mut sum = 0usize;
    for count in counts {
        sum = sum.saturating_add(*count);
    }
    sum
}

// Appends a line with a name and a number.
fn push_count(
    alloc: Global,
    out: &mut String,
    name: &str,
    count: usize,
) -> Result<(), OutOfMemory> {
    let number = format!(in alloc; "{count}")?;
    out.push_str(name)?;
    let written = name.len().saturating_add(number.len());
    for _ in written..NAMES.saturating_add(NUMBERS) {
        out.push(' ')?;
    }
    out.push_str(number.as_str())?;
    out.push('\n')
}

// Appends a line for each name that was counted at all.
fn push_counts(
    alloc: Global,
    out: &mut String,
    names: &[&'static str],
    counts: &[usize],
) -> Result<(), OutOfMemory> {
    for (name, count) in names.iter().zip(counts.iter()) {
        if *count > 0 {
            let name = format!(in alloc; "  {name}")?;
            push_count(alloc, out, name.as_str(), *count)?;
        }
    }
    Ok(())
}

// Appends a line for each link that carried a message.
fn push_links(alloc: Global, out: &mut String, stats: &Stats) -> Result<(), OutOfMemory> {
    if stats.links.is_empty() {
        return Ok(());
    }
    out.push_str("links, and how many messages were on one at most\n")?;
    for link in stats.links.as_slice() {
        let (from, to) = (link.from, link.to);
        let name = format!(in alloc; "  kernel {from} to {to}")?;
        push_two(alloc, out, name.as_str(), link.sent, link.longest)?;
    }
    Ok(())
}

// Appends a line with a name and two numbers.
fn push_two(
    alloc: Global,
    out: &mut String,
    name: &str,
    count: usize,
    longest: usize,
) -> Result<(), OutOfMemory> {
    push_count(alloc, out, name, count)?;
    let _ = out.pop();
    let number = format!(in alloc; "{longest}")?;
    for _ in number.len()..NUMBERS {
        out.push(' ')?;
    }
    out.push_str(number.as_str())?;
    out.push('\n')
}

// Appends a line for each VPE that was asked.
fn push_asks(alloc: Global, out: &mut String, stats: &Stats) -> Result<(), OutOfMemory> {
    if stats.asks.is_empty() {
        return Ok(());
    }
    out.push_str("VPEs that were asked, and how many asks waited for one at most\n")?;
    for ask in stats.asks.as_slice() {
        let vpe = ask.vpe;
        let name = format!(in alloc; "  VPE {vpe}")?;
        push_count(alloc, out, name.as_str(), ask.longest)?;
    }
    Ok(())
}

// Appends a line for each revoke and clear that began.
fn push_revokes(alloc: Global, out: &mut String, stats: &Stats) -> Result<(), OutOfMemory> {
    if stats.revokes.is_empty() {
        return Ok(());
    }
    out.push_str("revokes and clears, and how many entries later they were answered\n")?;
    for revoke in stats.revokes.as_slice() {
        push_revoke(alloc, out, revoke)?;
    }
    Ok(())
}

// Appends the line of a revoke or a clear.
fn push_revoke(alloc: Global, out: &mut String, revoke: &RevokeTime) -> Result<(), OutOfMemory> {
    let (entry, vpe) = (revoke.entry, revoke.vpe);
    let key = key_text(alloc, &revoke.key)?;
    let call = call_name(revoke);
    let name = format!(in alloc; "  entry {entry}: VPE {vpe}, {call} of {key}")?;
    match revoke.taken {
        Some(taken) => push_count(alloc, out, name.as_str(), taken),
        None => {
            out.push_str(name.as_str())?;
            out.push_str(" not answered\n")
        }
    }
}

/// The name of the call.
pub fn call_name(revoke: &RevokeTime) -> &'static str {
    if revoke.is_clear { "clear" } else { "revoke" }
}

// Appends a line for each call that waited.
fn push_costs(alloc: Global, out: &mut String, stats: &Stats) -> Result<(), OutOfMemory> {
    let mut is_first = true;
    for cost in stats.calls.as_slice() {
        if cost.taken != Some(0) {
            if is_first {
                out.push_str("calls that waited: their entries, messages, and when answered\n")?;
                is_first = false;
            }
            push_cost(alloc, out, cost)?;
        }
    }
    Ok(())
}

// Appends the cost of a call.
fn push_cost(alloc: Global, out: &mut String, cost: &CallCost) -> Result<(), OutOfMemory> {
    let words = call_words(alloc, &cost.call)?;
    let (vpe, index) = (cost.vpe, cost.index);
    let name = format!(in alloc; "  VPE {vpe} call {index}, {words}")?;
    push_two(alloc, out, name.as_str(), cost.entries, cost.sent)?;
    let _ = out.pop();
    match cost.taken {
        Some(taken) => {
            let number = format!(in alloc; "{taken}")?;
            for _ in number.len()..NUMBERS {
                out.push(' ')?;
            }
            out.push_str(number.as_str())?;
        }
        None => out.push_str(" not answered")?,
    }
    out.push('\n')
}

// Appends the longest chain, and how many entries there are for each of its own.
fn push_chain(alloc: Global, out: &mut String, stats: &Stats) -> Result<(), OutOfMemory> {
    push_count(alloc, out, "longest chain of entries", stats.chain)?;
    let tenths = stats.entries.saturating_mul(10) / stats.chain.max(1);
    let (whole, tenth) = (tenths / 10, tenths % 10);
    let number = format!(in alloc; "{whole}.{tenth}")?;
    let name = "entries for each of them";
    out.push_str(name)?;
    let written = name.len().saturating_add(number.len());
    for _ in written..NAMES.saturating_add(NUMBERS) {
        out.push(' ')?;
    }
    out.push_str(number.as_str())?;
    out.push('\n')
}
