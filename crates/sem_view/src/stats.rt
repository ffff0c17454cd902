// The counts of a report.
use crate::queues::{LinkQueues, ask_queues};
use sem_chart::{count_between, count_code, count_event, count_message};
use sem_key::{Key, OutOfMemory};
use sem_msg::{Act, Call, Detail, Entry, Journal, Setup};
use sem_waits::{Wait, longest_chain, waits_in};
use std::alloc::Global;

/// The messages from a kernel to another: how many were sent, and the most on the link at a time.
#[derive(Clone, Copy, Debug)]
pub struct LinkCount {
    pub from: u32,
    pub to: u32,
    pub sent: usize,
    pub longest: usize,
}

/// The most asks that waited at a time for a VPE, counting those with an upcall.
#[derive(Clone, Copy, Debug)]
pub struct AskCount {
    pub vpe: u16,
    pub longest: usize,
}

/// A revoke or a clear that began: its entry, its VPE, its key, and how many entries later it was
/// answered; none if it was not.
#[derive(Clone, Copy, Debug)]
pub struct RevokeTime {
    pub entry: usize,
    pub vpe: u16,
    pub is_clear: bool,
    pub key: Key,
    pub taken: Option<usize>,
}

/// The cost of a call: how many entries are its own, how many of these send a message, and how many
/// entries later it was answered, if it was.
#[derive(Clone, Copy, Debug)]
pub struct CallCost {
    pub vpe: u16,
    pub index: u32,
    pub call: Call,
    pub entries: usize,
    pub sent: usize,
    pub taken: Option<usize>,
}

/// The counts of a report. The lists of numbers go by the numbers of events (from 1), messages
/// (from 1) and codes (from 0).
#[derive(Debug, Drop)]
pub struct Stats {
    pub entries: usize,
    pub events: Vec<usize>,
    pub messages: Vec<usize>,
    pub codes: Vec<usize>,
    pub links: Vec<LinkCount>,
    pub asks: Vec<AskCount>,
    pub revokes: Vec<RevokeTime>,
    pub calls: Vec<CallCost>,
    /// The length of the longest chain of entries, each of which had to wait for the one before.
    pub chain: usize,
}

/// The counts of the journal of the setup.
pub fn stats_of(alloc: Global, setup: &Setup, journal: &Journal) -> Result<Stats, OutOfMemory> {
    let entries = journal.as_slice();
    let mut events = Vec::new(alloc);
    for number in 1..=7 {
        events.push(count_event(entries, number))?;
    }
    let mut messages = Vec::new(alloc);
    for number in 1..=11 {
        messages.push(count_message(entries, number))?;
    }
    let mut codes = Vec::new(alloc);
    for code in 0..=15 {
        codes.push(count_code(entries, code))?;
    }
    Ok(Stats {
        entries: entries.len(),
        events,
        messages,
        codes,
        links: links_of(alloc, setup, entries)?,
        asks: asks_of(alloc, setup, entries)?,
        revokes: revokes_of(alloc, entries)?,
        calls: costs_of(alloc, entries)?,
        chain: longest_chain(alloc, setup.kernels, entries)?,
    })
}

// The cost of each call, in the order in which they were made.
fn costs_of(alloc: Global, entries: &[Entry]) -> Result<Vec<CallCost>, OutOfMemory> {
    let waits = waits_in(alloc, entries)?;
    let mut costs = Vec::new(alloc);
    for wait in waits.as_slice() {
        costs.push(cost_of(entries, wait))?;
    }
    Ok(costs)
}

// The cost of the call: its own entry, the one that answers it, and those between that it waited
// for.
fn cost_of(entries: &[Entry], wait: &Wait) -> CallCost {
    let taken = wait.end.map(|end| end.saturating_sub(wait.begin));
    let ends = if taken.is_some_and(|taken| taken > 0) {
        2
    } else {
        1
    };
    CallCost {
        vpe: wait.vpe,
        index: wait.index,
        call: wait.call,
        entries: wait.between.len().saturating_add(ends),
        sent: sent_among(entries, wait.between.as_slice()),
        taken,
    }
}

// How many of the entries with these numbers send a message.
fn sent_among(entries: &[Entry], numbers: &[usize]) -> usize {
    let mut sent = 0usize;
    for number in numbers {
        if let Some(entry) = entries.get(*number)
            && let Act::Flush { .. } = entry.event.act
        {
            sent = sent.saturating_add(1);
        }
    }
    sent
}

// The counts of each link that carried a message.
fn links_of(
    alloc: Global,
    setup: &Setup,
    entries: &[Entry],
) -> Result<Vec<LinkCount>, OutOfMemory> {
    let queues = LinkQueues::of(alloc, setup.kernels, entries)?;
    let mut links = Vec::new(alloc);
    for from in 0..setup.kernels {
        for to in 0..setup.kernels {
            let longest = queues.longest(from, to);
            if longest > 0 {
                links.push(LinkCount {
                    from,
                    to,
                    sent: count_between(entries, from, to),
                    longest,
                })?;
            }
        }
    }
    Ok(links)
}

// How many asks waited for each VPE that was asked.
fn asks_of(alloc: Global, setup: &Setup, entries: &[Entry]) -> Result<Vec<AskCount>, OutOfMemory> {
    let longest = ask_queues(alloc, entries)?;
    let mut asks = Vec::new(alloc);
    for decl in setup.vpes.as_slice() {
        let most = longest.get(usize::from(decl.vpe)).copied().unwrap_or(0);
        if most > 0 {
            asks.push(AskCount {
                vpe: decl.vpe,
                longest: most,
            })?;
        }
    }
    Ok(asks)
}

// The revokes and clears that began, in the order in which they began.
fn revokes_of(alloc: Global, entries: &[Entry]) -> Result<Vec<RevokeTime>, OutOfMemory> {
    let mut revokes: Vec<RevokeTime> = Vec::new(alloc);
    for (at, entry) in entries.iter().enumerate() {
        match (entry.event.act, entry.detail) {
            (Act::Call { vpe }, Detail::Called { call, .. }) => {
                if let (Some(is_clear), Some(key)) = (clears(&call), entry.cut) {
                    revokes.push(RevokeTime {
                        entry: at,
                        vpe,
                        is_clear,
                        key,
                        taken: entry.reply.map(|_| 0),
                    })?;
                }
            }
            (Act::Resume { vpe }, _) => answer(revokes.as_mut_slice(), vpe, at),
            _ => {}
        }
    }
    Ok(revokes)
}

// Whether a call is a clear; none if it is neither a clear nor a revoke.
fn clears(call: &Call) -> Option<bool> {
    match call {
        Call::Revoke { .. } => Some(false),
        Call::Clear { .. } => Some(true),
        _ => None,
    }
}

// Notes that the last call of the VPE is answered at that entry, if it is a waiting revoke.
fn answer(revokes: &mut [RevokeTime], vpe: u16, at: usize) {
    for revoke in revokes.iter_mut().rev() {
        if revoke.vpe == vpe {
            if revoke.taken.is_none() {
                revoke.taken = Some(at.saturating_sub(revoke.entry));
            }
            return;
        }
    }
}
