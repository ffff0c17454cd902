// A report as a trace in the JSON form that Perfetto and Chrome show: a process for each kernel,
// with a thread for the kernel itself and one for each of its VPEs. The number of an entry is its
// time in microseconds.
use crate::entries::event_name;
use sem_chart::{OtherEnd, label_of, message_name, partners_of};
use sem_key::OutOfMemory;
use sem_msg::{Act, Detail, Entry, Journal, Setup};
use sem_waits::{Wait, call_words, waits_in};
use serde::Serialize;
use std::alloc::Global;

/// An event of such a trace.
#[derive(Debug, Drop, Serialize)]
struct Traced {
    name: String,
    cat: &'static str,
    ph: &'static str,
    pid: u32,
    tid: u32,
    #[serde(skip_serializing_if = "Option::is_none")]
    ts: Option<u64>,
    #[serde(skip_serializing_if = "Option::is_none")]
    dur: Option<u64>,
    #[serde(skip_serializing_if = "Option::is_none")]
    id: Option<u64>,
    #[serde(skip_serializing_if = "Option::is_none")]
    bp: Option<&'static str>,
    #[serde(skip_serializing_if = "Option::is_none")]
    args: Option<Named>,
}

#[derive(Debug, Drop, Serialize)]
struct Named {
    name: String,
}

#[derive(Debug, Drop, Serialize)]
#[serde(rename_all = "camelCase")]
struct Trace {
    display_time_unit: &'static str,
    trace_events: Vec<Traced>,
}

/// The trace as one JSON text.
pub fn perfetto(alloc: Global, setup: &Setup, journal: &Journal) -> Result<String, OutOfMemory> {
    let entries = journal.as_slice();
    let mut events = Vec::new(alloc);
    push_names(alloc, &mut events, setup)?;
    for (number, entry) in entries.iter().enumerate() {
        events.push(step(alloc, number, entry)?)?;
    }
    push_flows(alloc, &mut events, setup, entries)?;
    for wait in waits_in(alloc, entries)?.as_slice() {
        push_wait(alloc, &mut events, setup, entries.len(), wait)?;
    }
    let trace = Trace {
        display_time_unit: "ms",
        trace_events: events,
    };
    match serde_json::to_string(alloc, &trace) {
        Ok(mut text) => {
            text.push('\n')?;
            Ok(text)
        }
        Err(_) => Err(OutOfMemory),
    }
}

// The number of the thread of a VPE; that of the kernel is 0.
fn thread_of(vpe: u16) -> u32 {
    u32::from(vpe).saturating_add(1)
}

// Appends the names of processes and threads.
fn push_names(alloc: Global, events: &mut Vec<Traced>, setup: &Setup) -> Result<(), OutOfMemory> {
    for kernel in 0..setup.kernels {
        let process = format!(in alloc; "kernel {kernel}")?;
        events.push(name_of(alloc, "process_name", kernel, 0, process)?)?;
        let thread = format!(in alloc; "K{kernel}")?;
        events.push(name_of(alloc, "thread_name", kernel, 0, thread)?)?;
    }
    for decl in setup.vpes.as_slice() {
        let vpe = decl.vpe;
        let thread = format!(in alloc; "v{vpe}")?;
        let kernel = setup.kernel_of(vpe);
        events.push(name_of(alloc, "thread_name", kernel, thread_of(vpe), thread)?)?;
    }
    Ok(())
}

// The event that gives a process or a thread its name.
fn name_of(
    alloc: Global,
    kind: &str,
    pid: u32,
    tid: u32,
    name: String,
) -> Result<Traced, OutOfMemory> {
    Ok(Traced {
        name: String::from_str(alloc, kind)?,
        cat: "__metadata",
        ph: "M",
        pid,
        tid,
        ts: None,
        dur: None,
        id: None,
        bp: None,
        args: Some(Named { name }),
    })
}

// The step of a kernel in an entry.
fn step(alloc: Global, number: usize, entry: &Entry) -> Result<Traced, OutOfMemory> {
    let alone = OtherEnd {
        entry: None,
        is_shown: false,
    };
    Ok(Traced {
        name: label_of(alloc, entry, alone)?,
        cat: event_name(entry.event.act),
        ph: "X",
        pid: entry.event.kernel,
        tid: 0,
        ts: Some(number as u64),
        dur: Some(1),
        id: None,
        bp: None,
        args: None,
    })
}

// Appends an arrow for each message that arrives, from where it was sent.
fn push_flows(
    alloc: Global,
    events: &mut Vec<Traced>,
    setup: &Setup,
    entries: &[Entry],
) -> Result<(), OutOfMemory> {
    let partners = partners_of(alloc, setup.kernels, entries, 0)?;
    for (number, entry) in entries.iter().enumerate() {
        if let (Act::Fetch { from }, Some(since), Detail::Carried { message, .. }) = (
            entry.event.act,
            partners.of(number),
            entry.detail,
        ) {
            let name = message_name(&message);
            events.push(flow(alloc, name, "s", (from, since), since)?)?;
            let to = entry.event.kernel;
            events.push(flow(alloc, name, "f", (to, number), since)?)?;
        }
    }
    Ok(())
}

// An end of the arrow of that number, at a kernel in an entry.
fn flow(
    alloc: Global,
    name: &str,
    ph: &'static str,
    end: (u32, usize),
    id: usize,
) -> Result<Traced, OutOfMemory> {
    Ok(Traced {
        name: String::from_str(alloc, name)?,
        cat: "message",
        ph,
        pid: end.0,
        tid: 0,
        ts: Some(end.1 as u64),
        dur: None,
        id: Some(id as u64),
        bp: if ph == "f" { Some("e") } else { None },
        args: None,
    })
}

// Appends the wait of a call: up to its answer, or to the end of that many entries.
fn push_wait(
    alloc: Global,
    events: &mut Vec<Traced>,
    setup: &Setup,
    entries: usize,
    wait: &Wait,
) -> Result<(), OutOfMemory> {
    let end = match wait.end {
        Some(end) => end.saturating_add(1),
        None => entries,
    };
    events.push(Traced {
        name: call_words(alloc, &wait.call)?,
        cat: "call",
        ph: "X",
        pid: setup.kernel_of(wait.vpe),
        tid: thread_of(wait.vpe),
        ts: Some(wait.begin as u64),
        dur: Some(end.saturating_sub(wait.begin) as u64),
        id: None,
        bp: None,
        args: None,
    })?;
    Ok(())
}
