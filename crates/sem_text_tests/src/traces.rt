//! Traces that are read and printed, and texts that are no traces: every form of a line, with each
//! fault of its form, and each fault that earlier lines cause.

use sem_reader::read_trace;
use sem_trace::{Cause, TraceError, print_trace};
use std::alloc::Global;
use std::test::Fail;

// A line of each form in version 1, and the bounds of the numbers of version 2.
const TRACES: [&str; 2] = [
    "\
semper trace 1
kernels 2
pe 0 0
pe 1 1
vpe 0 0
vpe 1 1
root 0 0 mem 0 4096 7
root 0 1 recv 64
service 0 2 9
offer 9 0 0
offer 9 1 1
deny 0 1
deny 1 1
kill 1 4294967295
call 0 derive 0 3 0 1024 1
call 0 gate 1 4 77 64
call 0 obtain 5 1 0
call 0 delegate 0 1 1
call 1 open 0 9
call 1 ask 1 0 0
call 1 revoke 0
call 1 bind 0 1
call 1 read 0 1 2
call 1 write 15 3 4
call 1 send 1 16
call 1 credit 1
call 1 clear 0
call 1 exit
end
",
    "\
semper trace 2
kernels 32
window 32
pe 0 31
pe 127 0
vpe 0 0
vpe 127 127
root 127 0 mem 0 4096 7
deny 127 0
kill 127 3
call 0 obtain 5 127 0
call 127 delegate 0 0 1
end
",
];

#[test]
fn a_trace_is_read_as_it_is_printed(rt: HostRuntime) -> Result<(), Fail> {
    for text in TRACES {
        let Ok(setup) = read_trace(rt.alloc(), text.as_bytes()) else {
            return Err(Fail::new("the trace is read"));
        };
        let mut printed = Vec::new(rt.alloc());
        print_trace(rt.alloc(), &setup, &mut printed)?;
        assert_eq!(rt; printed.as_slice(), text.as_bytes());
    }
    Ok(())
}

// The line and the cause for which the parts, joined, are refused as a trace, if they are.
fn refusal(alloc: Global, parts: &[&str]) -> Result<Option<(u64, Cause)>, Fail> {
    let mut text = Vec::new(alloc);
    for part in parts {
        text.extend_from_slice(part.as_bytes())?;
    }
    match read_trace(alloc, &text) {
        Ok(_) => Ok(None),
        Err(TraceError::Refused(fault)) => Ok(Some((fault.line, fault.cause))),
        Err(TraceError::Memory) => Err(Fail::new("out of memory")),
    }
}

// A version of the texts.
#[derive(Clone, Copy)]
struct Version {
    // Lines that each line below may follow.
    base: &'static str,
    // The number of the line that follows them.
    line: u64,
    // The first number that is no PE and no VPE.
    nodes: &'static str,
}

const VERSIONS: [Version; 2] = [
    Version {
        base: "\
semper trace 1
kernels 2
pe 0 0
pe 1 1
vpe 0 0
root 0 0 mem 0 4096 7
service 0 2 9
",
        line: 8,
        nodes: "64",
    },
    Version {
        base: "\
semper trace 2
kernels 2
window 1
pe 0 0
pe 1 1
vpe 0 0
root 0 0 mem 0 4096 7
service 0 2 9
",
        line: 9,
        nodes: "128",
    },
];

// The word in the table for that number.
const NODES: &str = "nodes";

// A line of each form, and for each of its numbers the first above its range.
const FORMS: [(&str, &[&str]); 22] = [
    ("pe 5 1", &[NODES, "2"]),
    ("vpe 1 1", &[NODES, NODES]),
    (
        "root 0 1 mem 0 1 7",
        &[NODES, "256", "4294967296", "4294967296", "8"],
    ),
    ("root 0 1 recv 64", &[NODES, "256", "65"]),
    ("service 0 3 3", &[NODES, "256", "256"]),
    ("offer 9 1 0", &["256", "256", "256"]),
    ("deny 0 0", &[NODES, NODES]),
    ("kill 0 1", &[NODES, "4294967296"]),
    (
        "call 0 derive 0 3 0 1024 1",
        &[NODES, "256", "256", "4294967296", "4294967296", "8"],
    ),
    (
        "call 0 gate 1 4 77 64",
        &[NODES, "256", "256", "4294967296", "65"],
    ),
    ("call 0 obtain 5 1 0", &[NODES, "256", NODES, "256"]),
    ("call 0 delegate 0 1 1", &[NODES, "256", NODES, "256"]),
    ("call 0 open 0 9", &[NODES, "256", "256"]),
    ("call 0 ask 1 0 0", &[NODES, "256", "256", "256"]),
    ("call 0 revoke 0", &[NODES, "256"]),
    ("call 0 bind 0 1", &[NODES, "16", "256"]),
    (
        "call 0 read 0 1 2",
        &[NODES, "16", "4294967296", "4294967296"],
    ),
    (
        "call 0 write 15 3 4",
        &[NODES, "16", "4294967296", "4294967296"],
    ),
    ("call 0 send 1 16", &[NODES, "16", "4294967296"]),
    ("call 0 credit 1", &[NODES, "16"]),
    ("call 0 exit", &[NODES]),
    ("call 0 clear 255", &[NODES, "256"]),
];

// The end of each trace after such a line.
const END: &str = "\nend\n";

// A quarter of the bytes of a line that is too long.
const BLANKS: &str = "                                                                ";

#[test]
fn a_line_of_each_form_is_read_and_refused_where_it_goes_on(rt: HostRuntime) -> Result<(), Fail> {
    for version in VERSIONS {
        let (base, at) = (version.base, version.line);
        for (line, _) in FORMS {
            assert_eq!(rt; refusal(rt.alloc(), &[base, line, END])?, None, "{line}");
            for (more, cause) in [(" 0", Cause::TooMany), (" \x7f", Cause::NotText)] {
                let found = refusal(rt.alloc(), &[base, line, more, END])?;
                assert_eq!(rt; found, Some((at, cause)), "{line}{more}");
            }
            let long = [base, line, BLANKS, BLANKS, BLANKS, BLANKS, END];
            let found = refusal(rt.alloc(), &long)?;
            assert_eq!(rt; found, Some((at, Cause::LineTooLong)), "{line}");
        }
    }
    Ok(())
}

#[test]
fn a_line_of_each_form_is_refused_at_each_of_its_words(rt: HostRuntime) -> Result<(), Fail> {
    let alloc = rt.alloc();
    for version in VERSIONS {
        let (base, at) = (version.base, version.line);
        for (line, ends) in FORMS {
            let mut above = ends.iter();
            let mut from = 0usize;
            for word in line.split(' ') {
                let to = from.saturating_add(word.len());
                let (before, behind) = (
                    line.get(..from).unwrap_or(""),
                    line.get(to..).unwrap_or(""),
                );
                let mut rows = Vec::new(alloc);
                if word.parse::<u64>().is_ok() {
                    let end = above.next().ok_or("an end for each number")?;
                    let end = if *end == NODES { version.nodes } else { end };
                    rows.push((end, Cause::OutOfRange))?;
                    for bad in ["x", "01", "-1"] {
                        rows.push((bad, Cause::BadNumber))?;
                    }
                } else {
                    rows.push(("x", Cause::UnknownWord))?;
                }
                for (bad, cause) in &rows {
                    let found = refusal(alloc, &[base, before, bad, behind, END])?;
                    assert_eq!(rt; found, Some((at, *cause)), "{before}{bad}{behind}");
                }
                if from > 0 {
                    // The line ends before the blank.
                    let found = refusal(alloc, &[base, before.trim_end(), END])?;
                    assert_eq!(rt; found, Some((at, Cause::Missing)), "{before}");
                }
                from = to.saturating_add(1);
            }
        }
    }
    Ok(())
}

// Ten lines before the tested line.
const BASE: &str = "\
semper trace 1
kernels 2
pe 0 0
pe 1 1
vpe 0 0
root 0 0 mem 0 4096 7
service 0 2 9
offer 9 0 0
deny 0 0
kill 0 3
";

#[test]
fn what_is_above_a_limit_is_refused(rt: HostRuntime) -> Result<(), Fail> {
    let alloc = rt.alloc();
    let comment = refusal(alloc, &[BASE, "#", BLANKS, BLANKS, BLANKS, BLANKS, END])?;
    assert_eq!(rt; comment, Some((11, Cause::LineTooLong)));
    let lines = "\n".repeat(alloc, 8388609)?;
    let long = refusal(alloc, &[lines.as_str()])?;
    assert_eq!(rt; long, Some((0, Cause::InputTooLong)));
    let base = VERSIONS[0].base;
    let calls = "call 0 exit\n".repeat(alloc, 20000)?;
    assert_eq!(rt; refusal(alloc, &[base, calls.as_str(), "end\n"])?, None);
    let more = refusal(alloc, &[base, calls.as_str(), "call 0 exit", END])?;
    assert_eq!(rt; more, Some((20008, Cause::TooMany)));
    // An undeclared caller is refused before the number of the call.
    let other = refusal(alloc, &[base, calls.as_str(), "call 1 exit", END])?;
    assert_eq!(rt; other, Some((20008, Cause::Undeclared)));
    Ok(())
}
