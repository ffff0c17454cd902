//! What a call of the program leaves.

use sem_cli::Status;
use sem_io::{MemSink, MemSource};
use sem_msg::Journal;
use sem_node::{Gate, OpenGate};
use sem_run::semper;
use std::alloc::Global;
use std::process::Abort;
use std::sync::Wait;
use std::test::Fail;
use std::thread::Threads;

#[derive(Drop)]
pub(crate) struct Ending {
    pub(crate) status: Status,
    pub(crate) written: Vec<u8>,
    pub(crate) journal: Journal,
}

// What these words leave, over this source and this sink, with this gate.
pub(crate) fn ended_over<R: Threads + Wait + Sync, G: Gate + Sync>(
    rt: &R,
    alloc: Global,
    line: &str,
    mut source: MemSource,
    mut sink: MemSink,
    gate: &G,
) -> Result<Ending, Fail> {
    let mut words = Vec::new(alloc);
    for word in line.split(' ') {
        words.push(String::from_str(alloc, word)?)?;
    }
    let mut journal = Journal::new(alloc);
    let status = semper(
        rt,
        alloc,
        &words,
        &mut source,
        &mut sink,
        gate,
        &mut journal,
    );
    Ok(Ending {
        status,
        written: sink.bytes,
        journal,
    })
}

// What these words leave, over this input, with this gate.
pub(crate) fn ended<R: Threads + Wait + Sync, G: Gate + Sync>(
    rt: &R,
    alloc: Global,
    line: &str,
    input: &[u8],
    gate: &G,
) -> Result<Ending, Fail> {
    let source = MemSource::new(input.to_vec(alloc)?, 4096, Vec::new(alloc));
    let sink = MemSink::new(alloc, 100_000, 4096, Vec::new(alloc))?;
    ended_over(rt, alloc, line, source, sink, gate)
}

// What the trace leaves, run in threads with the gate; a check accepts its report.
pub(crate) fn accepted<R: Threads + Wait + Sync + Abort, G: Gate + Sync>(
    rt: &R,
    alloc: Global,
    trace: &str,
    gate: &G,
) -> Result<Ending, Fail> {
    let ran = ended(rt, alloc, "threads 0", trace.as_bytes(), gate)?;
    assert_eq!(rt; ran.status, Status::Done);
    let checked = ended(rt, alloc, "check", ran.written.as_slice(), &OpenGate)?;
    assert_eq!(rt; checked.status, Status::Done);
    assert_eq!(rt; checked.written.as_slice(), b"ok\n".as_slice());
    Ok(ran)
}
