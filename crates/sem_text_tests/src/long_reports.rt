// Long reports of equal entries. `bench/report_texts` runs each of these tests on its own and
// measures it.

use sem_report::{print_report, read_report};
use std::alloc::Global;
use std::process::Abort;
use std::test::Fail;

// Checks that a report with that many entries is read, and is printed as it was.
fn is_read(rt: &impl Abort, alloc: Global, entries: usize, count: &str) -> Result<(), Fail> {
    let mut text = Vec::new(alloc);
    text.extend_from_slice(b"semper report 1\nsemper trace 1\nkernels 1\nend\njournal ")?;
    text.extend_from_slice(count.as_bytes())?;
    text.push(b'\n')?;
    for _ in 0..entries {
        text.extend_from_slice(
            b"0 call 0 19999 derive 255 255 4294967295 4294967295 7 reply 0 9\n",
        )?;
    }
    text.extend_from_slice(b"audit\nmade 0\ncut 0\nheld 0\nend\n")?;
    let Ok((setup, journal, audit)) = read_report(alloc, &text) else {
        return Err(Fail::new("the report is read"));
    };
    assert_eq!(rt; journal.len(), entries);
    let mut out = Vec::new(alloc);
    print_report(alloc, &setup, &journal, &audit, &mut out)?;
    let is_same = out == text;
    assert!(rt; is_same);
    Ok(())
}

#[test]
fn a_report_of_ten_thousand_entries_is_read(rt: HostRuntime) -> Result<(), Fail> {
    is_read(&rt, rt.alloc(), 10000, "10000")
}

#[test]
fn a_report_of_eighty_thousand_entries_is_read(rt: HostRuntime) -> Result<(), Fail> {
    is_read(&rt, rt.alloc(), 80000, "80000")
}
