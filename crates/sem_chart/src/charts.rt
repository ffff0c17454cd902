// The message chart of a range of a journal.
use crate::labels::{OtherEnd, label_of};
use crate::lanes::{Shown, ended_by, kernel_lane, lanes_of, vpe_lane, vpe_of};
use crate::partners::{Partners, partners_of};
use crate::rows::{NumberedEntry, chart_rows};
use sem_draw::{Chart, Early, Family, Lane, Mark, Row};
use sem_key::OutOfMemory;
use sem_msg::{Act, Detail, Entry, Journal, Message, Setup};
use std::alloc::Global;

/// The entries of a journal from `from` on, up to the one before `to`.
#[derive(Clone, Copy, Debug)]
pub struct Range {
    pub from: usize,
    pub to: usize,
}

/// The chart of the entries in the range, as far as there are such entries, with the shown kernels.
pub fn chart_of(
    alloc: Global,
    setup: &Setup,
    journal: &Journal,
    range: Range,
    shown: &Shown,
) -> Result<Chart, OutOfMemory> {
    let all = journal.as_slice();
    let to = range.to.min(all.len());
    let from = range.from.min(to);
    let entries = &all[..to];
    let lanes = lanes_of(alloc, setup, shown, &entries[from..])?;
    let partners = partners_of(alloc, setup.kernels, entries, from)?;
    let mut rows = Vec::new(alloc);
    for numbered in chart_rows(alloc, all, from, to)?.as_slice() {
        if shown.has(numbered.entry.event.kernel) {
            rows.push(row_of(alloc, numbered, &partners, lanes.as_slice())?)?;
        }
    }
    let (waiting, ended) = before(alloc, &entries[..from], lanes.as_slice())?;
    Ok(Chart {
        early: early_of(alloc, &partners, lanes.as_slice(), all)?,
        lanes,
        waiting,
        ended,
        rows,
    })
}

// The lanes of the VPEs that wait after the entries, and of those that have ended.
fn before(
    alloc: Global,
    entries: &[Entry],
    lanes: &[Lane],
) -> Result<(Vec<usize>, Vec<usize>), OutOfMemory> {
    let mut waiting: Vec<usize> = Vec::new(alloc);
    let mut ended: Vec<usize> = Vec::new(alloc);
    for entry in entries {
        if let Some(vpe) = vpe_of(entry.event.act)
            && let Some(lane) = vpe_lane(lanes, vpe)
        {
            if ended_by(entry).is_some() {
                ended.push(lane)?;
            }
            match entry.event.act {
                Act::Call { .. } if entry.reply.is_none() => waiting.push(lane)?,
                Act::Resume { .. } | Act::Kill { .. } => waiting.retain(|other| *other != lane),
                _ => {}
            }
        }
    }
    Ok((waiting, ended))
}

fn row_of(
    alloc: Global,
    numbered: &NumberedEntry,
    partners: &Partners,
    lanes: &[Lane],
) -> Result<Row, OutOfMemory> {
    let entry = &numbered.entry;
    let partner = partners.of(numbered.number);
    let ends = ended_by(entry);
    Ok(Row {
        number: numbered.number as u64,
        mark: mark_of(entry, partner, lanes),
        ends: ends.and_then(|vpe| vpe_lane(lanes, vpe)),
        label: label_of(alloc, entry, other_end(entry, partner, lanes))?,
    })
}

// The other end of the message of an entry.
fn other_end(entry: &Entry, partner: Option<usize>, lanes: &[Lane]) -> OtherEnd {
    let peer = match entry.event.act {
        Act::Flush { to } => to,
        Act::Fetch { from } => from,
        _ => entry.event.kernel,
    };
    OtherEnd {
        entry: partner,
        is_shown: kernel_lane(lanes, peer).is_some(),
    }
}

// What the row of an entry shows.
fn mark_of(entry: &Entry, partner: Option<usize>, lanes: &[Lane]) -> Mark {
    let Some(kernel) = kernel_lane(lanes, entry.event.kernel) else {
        return Mark::Nothing;
    };
    match entry.event.act {
        Act::Flush { to } => sent_mark(entry, kernel, to, partner, lanes),
        Act::Fetch { from } => arrived_mark(entry, kernel, from, partner, lanes),
        Act::Handle => Mark::Dot { kernel },
        Act::Call { vpe } | Act::Upcall { vpe } | Act::Resume { vpe } | Act::Kill { vpe } => {
            match vpe_lane(lanes, vpe) {
                Some(lane) => vpe_mark(entry, kernel, lane),
                None => Mark::Dot { kernel },
            }
        }
    }
}

// What is shown for an act of a VPE.
fn vpe_mark(entry: &Entry, kernel: usize, vpe: usize) -> Mark {
    match entry.event.act {
        Act::Call { .. } => Mark::Call {
            vpe,
            kernel,
            is_answered: entry.reply.is_some(),
        },
        Act::Resume { .. } => Mark::Answer { kernel, vpe },
        Act::Kill { .. } => Mark::Kill { vpe },
        _ => Mark::Ask { kernel, vpe },
    }
}

// What is shown for a message that is sent.
fn sent_mark(entry: &Entry, from: usize, to: u32, partner: Option<usize>, lanes: &[Lane]) -> Mark {
    let family = family_of(entry);
    match kernel_lane(lanes, to) {
        Some(lane) => Mark::Sent {
            from,
            to: lane,
            until: partner.map(|number| number as u64),
            family,
        },
        None => Mark::Sent {
            from,
            to: if entry.event.kernel < to {
                from.saturating_add(1)
            } else {
                from.saturating_sub(1)
            },
            until: None,
            family,
        },
    }
}

// What is shown for a message that arrives. If its sender is not shown, the kernel does something
// on its own.
fn arrived_mark(
    entry: &Entry,
    to: usize,
    from: u32,
    partner: Option<usize>,
    lanes: &[Lane],
) -> Mark {
    match (kernel_lane(lanes, from), partner) {
        (Some(lane), Some(since)) => Mark::Arrived {
            from: lane,
            to,
            since: since as u64,
            family: family_of(entry),
        },
        _ => Mark::Dot { kernel: to },
    }
}

// What the message of an entry is about.
fn family_of(entry: &Entry) -> Family {
    let Detail::Carried { message, .. } = entry.detail else {
        return Family::Other;
    };
    match message {
        Message::ObtainReq { .. } | Message::ObtainOk { .. } | Message::ObtainNo { .. } => {
            Family::Obtain
        }
        Message::DelegateReq { .. }
        | Message::DelegatePrepared { .. }
        | Message::DelegateNo { .. }
        | Message::Ack { .. } => Family::Delegate,
        Message::RevokeReq { .. } | Message::RevokeDone { .. } => Family::Revoke,
        Message::Orphan { .. } | Message::Unlink { .. } => Family::Other,
    }
}

// The messages that were sent before the range and arrive in it, if both kernels are shown.
fn early_of(
    alloc: Global,
    partners: &Partners,
    lanes: &[Lane],
    all: &[Entry],
) -> Result<Vec<Early>, OutOfMemory> {
    let mut early = Vec::new(alloc);
    for message in partners.early.as_slice() {
        if let (Some(from), Some(to), Some(entry)) = (
            kernel_lane(lanes, message.from),
            kernel_lane(lanes, message.to),
            all.get(message.arrives),
        ) {
            early.push(Early {
                since: message.since as u64,
                from,
                to,
                family: family_of(entry),
            })?;
        }
    }
    Ok(early)
}
