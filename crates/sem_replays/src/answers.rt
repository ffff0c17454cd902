//! How the tests go through the journals of reports.

use sem_check::replay;
use sem_msg::{Entry, Event, Journal, Setup};
use sem_reader::read_trace;
use sem_report::read_report;
use sem_serial::{PlayError, boot, drain, play};
use std::alloc::Global;
use std::test::Fail;

/// Whether a run by the words of the seed goes on from a replay. From a replay of nothing, and from
/// one of the report's whole journal, it makes that journal. From one of the first half, it makes a
/// journal that begins with that half.
pub fn draws_on(alloc: Global, seed: u64, report: &[u8]) -> Result<bool, Fail> {
    match read_report(alloc, report) {
        Ok(read) => draws_on_from_each(alloc, &read.0, seed, read.1.as_slice()),
        Err(_) => Ok(false),
    }
}

fn draws_on_from_each(
    alloc: Global,
    setup: &Setup,
    seed: u64,
    entries: &[Entry],
) -> Result<bool, Fail> {
    let half = &entries[..entries.len() / 2];
    Ok(
        draws_on_from(alloc, setup, seed, &[], entries)?
            && draws_on_from(alloc, setup, seed, entries, entries)?
            && draws_on_from(alloc, setup, seed, half, half)?,
    )
}

// Whether the run goes on from a replay of the first entries to a journal that begins with the
// others.
fn draws_on_from(
    alloc: Global,
    setup: &Setup,
    seed: u64,
    first: &[Entry],
    wanted: &[Entry],
) -> Result<bool, Fail> {
    let mut journal = Journal::new(alloc);
    for entry in first {
        journal.room(1)?;
        journal.push(*entry);
    }
    Ok(goes_on_to(alloc, setup, seed, &journal, wanted))
}

fn goes_on_to(
    alloc: Global,
    setup: &Setup,
    seed: u64,
    journal: &Journal,
    wanted: &[Entry],
) -> bool {
    match replay(alloc, setup, journal) {
        Ok(mut start) => {
            drain(alloc, setup, &mut start.0, &mut start.1, seed).is_ok()
                && start.1.journal().as_slice().starts_with(wanted)
        }
        Err(_) => false,
    }
}

/// The place of the first of these events that is not enabled after those before it, and how many
/// entries those make; none if every event is enabled.
pub fn stops_at(alloc: Global, trace: &[u8], events: &[Event]) -> Option<(usize, usize)> {
    match read_trace(alloc, trace) {
        Ok(setup) => {
            let mut journal = Journal::new(alloc);
            match play(alloc, &setup, events, &mut journal) {
                Err(PlayError::NotEnabled { at }) => Some((at, journal.len())),
                _ => None,
            }
        }
        Err(_) => None,
    }
}

/// Whether the run of the trace, by the words of each of that many seeds, ends after that many
/// grants with nothing held.
pub fn ends_empty(alloc: Global, trace: &[u8], seeds: u64, grants: usize) -> bool {
    match read_trace(alloc, trace) {
        Ok(setup) => (0..seeds).all(|seed| drains_empty(alloc, &setup, seed, grants)),
        Err(_) => false,
    }
}

fn drains_empty(alloc: Global, setup: &Setup, seed: u64, grants: usize) -> bool {
    match boot(alloc, setup, Journal::new(alloc)) {
        Ok(mut start) => {
            drain(alloc, setup, &mut start.0, &mut start.1, seed).is_ok()
                && grants_in(start.1.journal().as_slice()) == grants
                && start.0.iter().all(|kernel| kernel.capability_count() == 0)
        }
        Err(_) => false,
    }
}

fn grants_in(entries: &[Entry]) -> usize {
    entries.iter().filter(|entry| entry.grant.is_some()).count()
}
