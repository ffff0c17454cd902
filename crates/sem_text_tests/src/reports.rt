//! Reports that are read and printed, and texts that are no reports.

use sem_report::{print_report, read_report};
use sem_samples::{OBTAIN_REPORT, REVOKE_REPORT};
use sem_trace::{Cause, TraceError};
use std::alloc::Global;
use std::test::Fail;

// What makes of `OBTAIN_REPORT` the same in version 2, where both VPEs and both kernels have the
// numbers farthest apart: each part, and what stands in all its places.
const FARTHEST: [(&str, &str); 12] = [
    ("report 1\n", "report 2\n"),
    ("trace 1\nkernels 2\n", "trace 2\nkernels 32\nwindow 32\n"),
    ("\npe 1 1", "\npe 127 31"),
    ("vpe 1 1", "vpe 127 127"),
    ("call 1", "call 127"),
    ("\n1 ", "\n31 "),
    ("fetch 1", "fetch 31"),
    ("handle 1", "handle 31"),
    ("flush 1", "flush 31"),
    ("upcall 0 1", "upcall 0 127"),
    ("resume 1 reply 1", "resume 127 reply 127"),
    ("1.1.", "127.127."),
];

// `OBTAIN_REPORT` with these changes.
fn far_report(alloc: Global) -> Result<String, Fail> {
    let mut text = String::from_str(alloc, OBTAIN_REPORT)?;
    for (part, by) in FARTHEST {
        text = text.replacen(alloc, part, by, usize::MAX)?;
    }
    Ok(text)
}

#[test]
fn a_report_is_read_as_it_is_printed(rt: HostRuntime) -> Result<(), Fail> {
    let far = far_report(rt.alloc())?;
    for (text, entries, held) in [
        (REVOKE_REPORT, 3, 0),
        (OBTAIN_REPORT, 9, 2),
        (far.as_str(), 9, 2),
    ] {
        let Ok((setup, journal, audit)) = read_report(rt.alloc(), text.as_bytes()) else {
            return Err(Fail::new("the report is read"));
        };
        assert_eq!(rt; journal.len(), entries);
        assert_eq!(rt; audit.held.len(), held);
        assert_eq!(rt; audit.made, 2);
        let mut out = Vec::new(rt.alloc());
        print_report(rt.alloc(), &setup, &journal, &audit, &mut out)?;
        assert_eq!(rt; out.as_slice(), text.as_bytes());
    }
    Ok(())
}

// A part of `REVOKE_REPORT`, its replacement, and the line and the cause for which the result is
// refused.
const CHANGES: [(&str, &str, u64, Cause); 38] = [
    // The first line.
    ("report 1", "report 3", 1, Cause::UnknownWord),
    ("report 1", "report 2 1", 1, Cause::TooMany),
    ("report 1", "report  2", 1, Cause::NotCanonical),
    (
        "semper report 1",
        " semper report 1",
        1,
        Cause::NotCanonical,
    ),
    // The trace, which is tested as a whole before its spelling is.
    ("semper trace 1", "semper trace 2", 2, Cause::UnknownWord),
    ("kernels 1\n", "kernels 1\n# more\n", 4, Cause::NotCanonical),
    ("pe 0 0\nvpe 0 0", "pe  0 0\nvpe 0 64", 5, Cause::OutOfRange),
    (
        "call 0 revoke 0\nend",
        "call 1 revoke 0\nend",
        8,
        Cause::Undeclared,
    ),
    // The journal.
    ("journal 3", "journal 03", 10, Cause::BadNumber),
    ("journal 3", "journal 4294967296", 10, Cause::OutOfRange),
    ("journal 3", "journal 2", 13, Cause::UnknownWord),
    ("journal 3", "journal 4", 14, Cause::BadNumber),
    ("0 resume 0", "0  resume 0", 13, Cause::NotCanonical),
    ("0 resume 0", "0 resume\t0", 13, Cause::NotCanonical),
    ("0 resume 0", "1 resume 0", 13, Cause::OutOfRange),
    (
        "reply 0 0\naudit",
        "reply 0 16\naudit",
        13,
        Cause::OutOfRange,
    ),
    ("cut 0.0.1.0", "cut 0.0.6.0", 12, Cause::OutOfRange),
    ("revoke 0 cut 0.0.1.0\n0", "rev", 12, Cause::UnknownWord),
    ("0 resume 0", "# resume 0", 13, Cause::BadNumber),
    // The audit.
    ("audit\n", "audit\n\n", 15, Cause::Missing),
    ("made 2", "made 2 2", 15, Cause::TooMany),
    ("cut 1", "cut 4294967296", 16, Cause::OutOfRange),
    ("held 0", "held 1", 18, Cause::UnknownWord),
    ("held 0", "held 1\nkey 0.0.1.0 256", 18, Cause::OutOfRange),
    ("held 0\nend\n", "held 0\nend", 18, Cause::NotCanonical),
    ("held 0\nend\n", "held 0\nend\n\n", 19, Cause::TooMany),
    ("held 0\nend\n", "held 0\nend\n\x7f", 19, Cause::NotText),
    // The trace has the version of the report.
    ("report 1", "report 2", 2, Cause::UnknownWord),
    ("trace 1", "trace 2", 2, Cause::UnknownWord),
    // The first bad place of the line is told.
    ("trace 1", "trace 2 1", 2, Cause::UnknownWord),
    ("trace 1", "trace 1 2", 2, Cause::TooMany),
    ("trace 1", "trace", 2, Cause::Missing),
    ("semper trace 1", "\x7f", 2, Cause::NotText),
    // What is wrong after it is not told.
    (
        "trace 1\nkernels 1",
        "trace 2\nkernels 99",
        2,
        Cause::UnknownWord,
    ),
    // A line that says nothing is skipped first, and then told itself.
    (
        "semper trace 1",
        "# more\nsemper trace 2",
        3,
        Cause::UnknownWord,
    ),
    (
        "semper trace 1",
        "# more\nsemper trace 1",
        2,
        Cause::NotCanonical,
    ),
    // Version 2 says how many messages a link holds.
    (
        "report 1\nsemper trace 1",
        "report 2\nsemper trace 2",
        4,
        Cause::UnknownWord,
    ),
    // The numbers after the trace go as far as the version allows.
    ("0.0.1.1", "0.64.1.1", 11, Cause::OutOfRange),
];

// The same of the report of version 2.
const FAR_CHANGES: [(&str, &str, u64, Cause); 5] = [
    ("report 2", "report 1", 2, Cause::UnknownWord),
    ("trace 2", "trace 1", 2, Cause::UnknownWord),
    ("31 resume 127", "31 resume 128", 21, Cause::OutOfRange),
    ("31 resume 127", "32 resume 127", 21, Cause::OutOfRange),
    ("key 0.0.1.0", "key 0.128.1.0", 26, Cause::OutOfRange),
];

#[test]
fn a_report_is_refused_at_its_first_bad_line(rt: HostRuntime) -> Result<(), Fail> {
    let far = far_report(rt.alloc())?;
    for (report, changes) in [
        (REVOKE_REPORT, CHANGES.as_slice()),
        (far.as_str(), FAR_CHANGES.as_slice()),
    ] {
        for (part, by, line, cause) in changes {
            let text = report.replacen(rt.alloc(), *part, by, 1)?;
            match read_report(rt.alloc(), text.as_bytes()) {
                Err(TraceError::Refused(fault)) => {
                    let found = (fault.line, fault.cause);
                    assert_eq!(rt; found, (*line, *cause), "{by:?} for {part:?}");
                }
                _ => assert!(rt; false, "{by:?} for {part:?} is refused"),
            }
        }
    }
    Ok(())
}

#[test]
fn a_report_that_is_too_long_is_refused_before_all_else(rt: HostRuntime) -> Result<(), Fail> {
    let text = vec![in rt.alloc(); b'\n'; 134217729]?;
    match read_report(rt.alloc(), &text) {
        Err(TraceError::Refused(fault)) => {
            assert_eq!(rt; (fault.line, fault.cause), (0, Cause::InputTooLong));
        }
        _ => assert!(rt; false, "the text is refused"),
    }
    Ok(())
}
