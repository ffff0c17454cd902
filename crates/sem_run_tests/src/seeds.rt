//! Whole runs with the same result by every seed, and in threads. The result is known from two
//! independent reference programs.

use crate::endings::ended;
use crate::threads::CROSSING;
use sem_cli::Status;
use sem_node::OpenGate;
use sem_samples::{CHAIN_OF_FORTY_ONE, KILL_OF_CHAIN, REVOKE_TRACE};
use std::alloc::Global;
use std::process::Abort;
use std::sync::Wait;
use std::test::Fail;
use std::thread::Threads;

// How many seeds run each text.
const SEEDS: u64 = 100;

// The numbers of the VPEs are below this.
const VPES: u16 = 3;

// A text in two parts, the command that runs it by a seed, and the result of each run.
struct Row {
    command: &'static str,
    head: &'static str,
    rest: &'static str,
    entries: usize,
    // A line for each VPE: its number, and the codes of its replies.
    replies: &'static str,
    // The end of the report: the audit, and the journal too if there is only one.
    told: &'static str,
}

const DERIVED_AND_REVOKED: &str = "journal 3
0 call 0 0 derive 0 1 0 1024 1 grant 0.0.1.0 0.0.1.1 reply 0 0
0 call 0 1 revoke 0 cut 0.0.1.0
0 resume 0 reply 0 0
audit
made 2
cut 1
held 0
end
";

// VPEs of one kernel ask each other.
const TWO_VPES_OF_ONE_KERNEL: &str = "semper trace 1
kernels 1
pe 0 0
pe 1 0
vpe 0 0
vpe 1 1
root 0 0 mem 0 4096 7
deny 1 0
call 0 delegate 0 1 4
call 1 obtain 1 0 0
call 1 obtain 1 0 0
call 1 obtain 2 1 0
end
";

// A delegate between living VPEs is acknowledged.
const DELEGATE_BETWEEN_KERNELS: &str = "semper trace 1
kernels 2
pe 0 0
pe 1 1
vpe 0 0
vpe 1 1
root 0 0 mem 0 4096 7
call 0 delegate 0 1 4
end
";

const DELEGATED: &str = "journal 12
0 call 0 0 delegate 0 1 4
0 flush 1 delegate-req 0.0.1.0 mem 0 4096 7 1 4
1 fetch 0 delegate-req 0.0.1.0 mem 0 4096 7 1 4
1 handle 0 delegate-req 0.0.1.0 mem 0 4096 7 1 4
1 upcall 1 0 yes
1 flush 0 delegate-prepared 0.0.1.0 1.1.1.0
0 fetch 1 delegate-prepared 0.0.1.0 1.1.1.0
0 handle 1 delegate-prepared 0.0.1.0 1.1.1.0
0 resume 0 grant 0.0.1.0 1.1.1.0 reply 0 0
0 flush 1 ack 1.1.1.0 yes
1 fetch 0 ack 1.1.1.0 yes
1 handle 0 ack 1.1.1.0 yes
audit
made 2
cut 0
held 2
key 0.0.1.0 0
key 1.1.1.0 4
end
";

// A kill waits for a reply, and takes what was given.
const KILL_AFTER_A_REPLY: &str = "semper trace 1
kernels 1
pe 0 0
pe 1 0
vpe 0 0
vpe 1 1
root 0 0 mem 0 4096 7
kill 0 1
call 1 obtain 1 0 0
end
";

const KILLED: &str = "journal 4
0 call 1 0 obtain 1 0 0
0 upcall 0 1 yes grant 0.0.1.0 1.1.1.0
0 resume 1 reply 1 0
0 kill 0
audit
made 2
cut 1
held 0
end
";

// A VPE opens a session, asks for three offers, uses them and revokes all of them; another VPE
// opens a session.
const SESSIONS_AND_OFFERS: &str = "semper trace 1
kernels 2
pe 0 0
pe 1 1
pe 2 1
vpe 0 0
vpe 1 1
vpe 2 2
service 0 0 1
root 0 1 mem 0 4096 7
root 0 2 mem 4096 4096 7
root 0 3 mem 8192 4096 7
offer 1 0 1
offer 1 1 2
offer 1 2 3
call 1 open 0 1
call 1 ask 1 0 0
call 1 ask 2 0 1
call 1 ask 3 0 2
call 1 bind 0 1
call 1 read 0 0 4096
call 1 bind 1 2
call 1 write 1 4095 1
call 1 bind 2 3
call 1 read 2 0 1
call 1 revoke 1
call 1 revoke 2
call 1 revoke 3
call 1 revoke 0
call 2 open 0 1
call 2 revoke 0
end
";

// A client writes across the extents of a file, and closes it.
const ONE_CLIENT: &str = "semper files 1
kernels 2
file 0 2
client 1
do 1 open 0 0
do 1 write 0 4090 10
do 1 close 0
end
";

// Two clients share a file, and the first closes it before the other opens it.
const TWO_CLIENTS: &str = "semper files 1
kernels 2
file 3 2
client 1
client 2
do 1 open 0 3
do 1 share 0 2 5
do 1 write 0 4000 200
do 1 close 0
do 2 open 1 3
do 2 read 1 0 100
end
";

const FORTY_ONE_REPLIES: &str =
    "0 0 0 0 0 0 0 0 0 0 0 0 0 0 0 0 0 0 0 0 0 0 0 0 0 0 0 0 0 0 0 0 0 0 0 0 0 0 0 0 0 0\n1\n2\n";

const ROWS: [Row; 11] = [
    Row {
        command: "run",
        head: "",
        rest: REVOKE_TRACE,
        entries: 3,
        replies: "0 0 0\n1\n2\n",
        told: DERIVED_AND_REVOKED,
    },
    Row {
        command: "run",
        head: "",
        rest: TWO_VPES_OF_ONE_KERNEL,
        entries: 8,
        replies: "0 5\n1 0 6 15\n2\n",
        told: "audit\nmade 2\ncut 0\nheld 2\nkey 0.0.1.0 0\nkey 1.1.1.0 1\nend\n",
    },
    Row {
        command: "run",
        head: "",
        rest: DELEGATE_BETWEEN_KERNELS,
        entries: 12,
        replies: "0 0\n1\n2\n",
        told: DELEGATED,
    },
    Row {
        command: "run",
        head: "",
        rest: KILL_AFTER_A_REPLY,
        entries: 4,
        replies: "0\n1 0\n2\n",
        told: KILLED,
    },
    Row {
        command: "run",
        head: "",
        rest: CROSSING,
        entries: 19,
        replies: "0 0 15\n1 0\n2\n",
        told: "audit
made 4
cut 0
held 4
key 0.0.1.0 0
key 0.0.1.1 1
key 1.1.1.0 0
key 1.1.1.1 1
end
",
    },
    Row {
        command: "run",
        head: "semper trace 1\nkernels 2\n",
        rest: KILL_OF_CHAIN,
        entries: 37,
        replies: "0 0 0\n1\n2\n",
        told: "audit\nmade 3\ncut 2\nheld 0\nend\n",
    },
    Row {
        command: "run",
        head: "",
        rest: SESSIONS_AND_OFFERS,
        entries: 76,
        replies: "0\n1 0 0 0 0 0 0 0 0 0 0 0 0 0 0\n2 0 0\n",
        told: "audit
made 9
cut 5
held 4
key 0.0.1.1 1
key 0.0.1.2 2
key 0.0.1.3 3
key 0.0.4.0 0
end
",
    },
    Row {
        command: "run",
        head: "semper trace 1\nkernels 2\n",
        rest: CHAIN_OF_FORTY_ONE,
        entries: 662,
        replies: FORTY_ONE_REPLIES,
        told: "audit\nmade 41\ncut 1\nheld 0\nend\n",
    },
    Row {
        command: "run",
        head: "semper trace 2\nkernels 2\nwindow 1\n",
        rest: CHAIN_OF_FORTY_ONE,
        entries: 662,
        replies: FORTY_ONE_REPLIES,
        told: "audit\nmade 41\ncut 1\nheld 0\nend\n",
    },
    Row {
        command: "files",
        head: "",
        rest: ONE_CLIENT,
        entries: 41,
        replies: "0\n1 0 0 0 0 0 0 0 0 0\n2\n",
        told: "audit
made 6
cut 2
held 4
key 0.0.1.1 1
key 0.0.1.2 2
key 0.0.4.0 0
key 1.1.5.0 0
end
",
    },
    Row {
        command: "files",
        head: "",
        rest: TWO_CLIENTS,
        entries: 88,
        replies: "0\n1 0 0 0 0 0 0 0 0 0 0 0\n2 0 0 0 0 0\n",
        told: "audit
made 11
cut 2
held 7
key 0.0.1.1 13
key 0.0.1.2 14
key 0.0.4.0 0
key 1.1.5.0 0
key 2.2.1.1 5
key 2.2.1.2 6
key 2.2.5.0 0
end
",
    },
];

// Asserts the result of these words with the text of the row.
fn comes_to<R: Threads + Wait + Sync + Abort>(
    rt: &R,
    alloc: Global,
    line: &str,
    row: &Row,
) -> Result<(), Fail> {
    let text = format!(in alloc; "{}{}", row.head, row.rest)?;
    let ending = ended(rt, alloc, line, text.as_bytes(), &OpenGate)?;
    assert_eq!(rt; ending.status, Status::Done);
    assert_eq!(rt; ending.journal.len(), row.entries);
    assert!(rt; ending.written.ends_with(row.told.as_bytes()));
    let mut replies = String::new(alloc);
    for vpe in 0..VPES {
        let number = format!(in alloc; "{vpe}")?;
        replies.push_str(number.as_str())?;
        for entry in ending.journal.as_slice() {
            if let Some(reply) = entry.reply
                && reply.vpe == vpe
            {
                let code = format!(in alloc; " {}", reply.code)?;
                replies.push_str(code.as_str())?;
            }
        }
        replies.push_str("\n")?;
    }
    assert_eq!(rt; replies.as_str(), row.replies);
    Ok(())
}

#[test]
fn runs_come_to_the_same_by_a_hundred_seeds(rt: HostRuntime) -> Result<(), Fail> {
    for row in &ROWS {
        for seed in 0..SEEDS {
            let line = format!(in rt.alloc(); "{} {seed}", row.command)?;
            comes_to(&rt, rt.alloc(), line.as_str(), row)?;
        }
    }
    Ok(())
}

#[test]
fn runs_in_threads_come_to_the_same(rt: HostRuntime) -> Result<(), Fail> {
    for row in &ROWS {
        if row.command == "run" {
            comes_to(&rt, rt.alloc(), "threads 0", row)?;
        }
    }
    Ok(())
}
