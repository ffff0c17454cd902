// Which events are enabled at a point of a journal.
use sem_journal::push_act;
use sem_kernel::World;
use sem_key::OutOfMemory;
use sem_msg::{Act, Entry, Event, Setup};
use sem_report::read_report;
use sem_text::push_number;
use std::alloc::Global;

/// Whether these lines tell the enabled events of the report's journal: how many entries come
/// before, and then event by event its kernel and its words.
pub fn waits_so(alloc: Global, report: &[u8], told: &[u8]) -> Result<bool, OutOfMemory> {
    let after = match told.iter().position(|byte| *byte == b'\n') {
        Some(end) => number_of(&told[..end]),
        None => None,
    };
    let Some(after) = after else {
        return Ok(false);
    };
    let mut lines = Vec::new(alloc);
    push_number(&mut lines, after)?;
    lines.push(b'\n')?;
    push_enabled(alloc, &mut lines, report, after)?;
    Ok(lines.as_slice() == told)
}

// The number that the bytes write.
fn number_of(bytes: &[u8]) -> Option<u64> {
    match str::from_utf8(bytes) {
        Ok(text) => text.parse::<u64>().ok(),
        Err(_) => None,
    }
}

// Appends a line for each event that is enabled after that many entries of the report's journal.
fn push_enabled(
    alloc: Global,
    out: &mut Vec<u8>,
    report: &[u8],
    after: u64,
) -> Result<(), OutOfMemory> {
    match read_report(alloc, report) {
        Ok(read) => push_enabled_after(alloc, out, &read.0, read.1.as_slice(), after),
        Err(_) => Ok(()),
    }
}

// The same for the journal's entries.
fn push_enabled_after(
    alloc: Global,
    out: &mut Vec<u8>,
    setup: &Setup,
    entries: &[Entry],
    after: u64,
) -> Result<(), OutOfMemory> {
    match World::boot(alloc, setup) {
        Ok(mut world) => {
            go_on(&mut world, entries, after);
            push_events(alloc, out, &world)
        }
        Err(error) => Err(error),
    }
}

// Lets the events of that many entries happen, up to one that cannot.
fn go_on(world: &mut World, entries: &[Entry], after: u64) {
    for (place, entry) in entries.iter().enumerate() {
        if place as u64 == after || world.step(entry.event).is_err() {
            return;
        }
    }
}

// Appends a line for each event that is enabled.
fn push_events(alloc: Global, out: &mut Vec<u8>, world: &World) -> Result<(), OutOfMemory> {
    let mut events = Vec::new(alloc);
    world.enabled_events(alloc, &mut events)?;
    for event in &events {
        push_event(out, event)?;
    }
    Ok(())
}

// Appends the line of the event.
fn push_event(out: &mut Vec<u8>, event: &Event) -> Result<(), OutOfMemory> {
    push_number(out, u64::from(event.kernel))?;
    push_act(out, &event.act)?;
    if let Act::Fetch { from: peer } | Act::Flush { to: peer } = event.act {
        out.push(b' ')?;
        push_number(out, u64::from(peer))?;
    }
    Ok(out.push(b'\n')?)
}
