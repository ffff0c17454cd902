//! A source and a sink that fail once, at each of their calls in turn.

use crate::endings::ended_over;
use sem_cli::Status;
use sem_io::{MemSink, MemSource};
use sem_node::OpenGate;
use sem_samples::{REVOKE_REPORT, REVOKE_TRACE};
use std::test::Fail;

/// The most bytes of a call.
const STEP: usize = 64;

// Words, their input, their output, and how many entries they leave.
struct Row {
    line: &'static str,
    input: &'static str,
    text: &'static str,
    entries: usize,
}

// File commands of a client that opens a file and reads it.
const FILES: &str = "semper files 1
kernels 1
file 0 1
client 1
do 1 open 15 0
do 1 read 15 0 4096
end
";

// The report of their run.
const OPENED_AND_READ: &str = "semper report 1
semper trace 1
kernels 1
pe 0 0
pe 1 0
vpe 0 0
vpe 1 1
service 0 0 0
root 0 1 mem 0 4096 7
offer 0 0 1
call 1 open 0 0
call 1 ask 61 0 0
call 1 bind 0 61
call 1 read 0 0 4096
end
journal 8
0 call 1 0 open 0 0
0 upcall 0 1 yes grant 0.0.4.0 1.1.5.0
0 resume 1 reply 1 0
0 call 1 1 ask 61 0 0
0 upcall 0 1 yes grant 0.0.1.1 1.1.1.1
0 resume 1 reply 1 0
0 call 1 2 bind 0 61 reply 1 0
0 call 1 3 read 0 0 4096 reply 1 0
audit
made 4
cut 0
held 4
key 0.0.1.1 1
key 0.0.4.0 0
key 1.1.1.1 61
key 1.1.5.0 0
end
";

// Every command that reads or writes.
const ROWS: [Row; 7] = [
    Row {
        line: "check",
        input: REVOKE_REPORT,
        text: "ok\n",
        entries: 0,
    },
    Row {
        line: "contents",
        input: REVOKE_REPORT,
        text: "semper contents 1\nend\n",
        entries: 0,
    },
    Row {
        line: "query holder 0.0.1.1 1",
        input: REVOKE_REPORT,
        text: "held 1 unmarked\n",
        entries: 0,
    },
    Row {
        line: "query path 0.0.1.1",
        input: REVOKE_REPORT,
        text: "key 0.0.1.1 kept\nkey 0.0.1.0 cut\n",
        entries: 0,
    },
    Row {
        line: "query denied 1",
        input: REVOKE_REPORT,
        text: "none\n",
        entries: 0,
    },
    Row {
        line: "files 0",
        input: FILES,
        text: OPENED_AND_READ,
        entries: 8,
    },
    Row {
        line: "run 0",
        input: REVOKE_TRACE,
        text: REVOKE_REPORT,
        entries: 3,
    },
];

#[test]
fn each_read_that_fails_leaves_nothing_written(rt: HostRuntime) -> Result<(), Fail> {
    for row in &ROWS {
        // The last read finds the end.
        let calls = row.input.len().div_ceil(STEP).saturating_add(1);
        for call in 0..=calls {
            let bytes = row.input.as_bytes().to_vec(rt.alloc())?;
            let source = MemSource::new(bytes, STEP, vec![in rt.alloc(); call as u64]?);
            let sink = MemSink::new(rt.alloc(), 4096, STEP, Vec::new(rt.alloc()))?;
            let ending = ended_over(&rt, rt.alloc(), row.line, source, sink, &OpenGate)?;
            if call < calls {
                assert_eq!(rt; ending.status, Status::ReadFault);
                assert!(rt; ending.written.is_empty());
                assert_eq!(rt; ending.journal.len(), 0);
            } else {
                assert_eq!(rt; ending.status, Status::Done);
                assert_eq!(rt; ending.written.as_slice(), row.text.as_bytes());
                assert_eq!(rt; ending.journal.len(), row.entries);
            }
        }
    }
    Ok(())
}

#[test]
fn each_write_that_fails_leaves_a_prefix(rt: HostRuntime) -> Result<(), Fail> {
    for row in &ROWS {
        for call in 0..row.text.len().div_ceil(STEP) {
            let bytes = row.input.as_bytes().to_vec(rt.alloc())?;
            let source = MemSource::new(bytes, STEP, Vec::new(rt.alloc()));
            let sink = MemSink::new(rt.alloc(), 4096, STEP, vec![in rt.alloc(); call as u64]?)?;
            let ending = ended_over(&rt, rt.alloc(), row.line, source, sink, &OpenGate)?;
            assert_eq!(rt; ending.status, Status::WriteFault);
            // A report is written in two parts, so one call may write less than it could.
            let most = call.saturating_mul(STEP);
            let written = ending.written.len();
            assert!(rt; written <= most && most < written.saturating_add(STEP));
            assert!(rt; row.text.as_bytes().starts_with(&ending.written));
            assert_eq!(rt; ending.journal.len(), row.entries);
        }
    }
    Ok(())
}
