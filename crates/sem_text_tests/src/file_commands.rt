use sem_files::{Command, FileAct, FileDecl, read_files};
use sem_trace::{Cause, TraceError, TraceFault};
use std::alloc::Global;
use std::process::Abort;
use std::test::Fail;

const WORKED: &str =
    "semper files 1\nkernels 2\nfile 0 2\nclient 1\ndo 1 open 0 0\ndo 1 write 0 4090 10\ndo 1 close 0\nend\n";

#[test]
fn a_client_writes_across_two_extents(rt: HostRuntime) -> Result<(), Fail> {
    let read = read_files(rt.alloc(), WORKED.as_bytes());
    let is_read = read.is_ok();
    assert!(rt; is_read);
    if let Ok(files) = read {
        assert_eq!(rt; files.kernels, 2);
        let declared = [FileDecl {
            file: 0,
            extents: 2,
        }];
        assert_eq!(rt; files.files.as_slice(), declared.as_slice());
        assert_eq!(rt; files.clients.as_slice(), [1].as_slice());
        let acts = [
            FileAct::OpenFile { handle: 0, file: 0 },
            FileAct::Write {
                handle: 0,
                off: 4090,
                len: 10,
            },
            FileAct::Close { handle: 0 },
        ];
        let commands = [
            Command {
                client: 1,
                act: acts[0],
            },
            Command {
                client: 1,
                act: acts[1],
            },
            Command {
                client: 1,
                act: acts[2],
            },
        ];
        assert_eq!(rt; files.commands.as_slice(), commands.as_slice());
    }
    Ok(())
}

// The refusal of the text, if it is refused.
fn refusal(alloc: Global, text: &[u8]) -> Option<TraceFault> {
    match read_files(alloc, text) {
        Err(TraceError::Refused(fault)) => Some(fault),
        _ => None,
    }
}

// Checks that the text is refused at that line, at that word, for that cause.
fn refuses(rt: &impl Abort, alloc: Global, text: &str, line: u64, word: Option<u64>, cause: Cause) {
    let found = refusal(alloc, text.as_bytes());
    assert_eq!(rt; found, Some(TraceFault { line, word, cause }));
}

// The lines before those that are tested.
const BEGIN: &str = "semper files 1\nkernels 2\nfile 0 2\nclient 1\nclient 2\ndo 1 open 0 0\n";

#[test]
fn bad_lines_are_refused(rt: HostRuntime) -> Result<(), Fail> {
    for (text, word, cause) in [
        ("do 1 write 0 8190 3\n", Some(5), Cause::OutOfRange),
        ("do 1 write 0 8190 0\n", Some(5), Cause::OutOfRange),
        ("do 1 close 1\n", Some(3), Cause::Undeclared),
        ("do 3 close 0\n", Some(1), Cause::Undeclared),
        ("do 1 open 1 1\n", Some(4), Cause::Undeclared),
        ("do 1 share 0 3 0\n", Some(4), Cause::Undeclared),
        ("do 1 share 0 1 0\n", Some(4), Cause::Twice),
        ("do 1 open 0 0\n", Some(3), Cause::Twice),
        ("file 0 1\n", Some(1), Cause::Twice),
        ("client 2\n", Some(1), Cause::Twice),
        ("kernels 2\n", Some(0), Cause::Twice),
        ("kernels 17\n", Some(1), Cause::OutOfRange),
        ("semper files 1\n", Some(0), Cause::UnknownWord),
        ("do 1 lend 0 2 0\n", Some(2), Cause::UnknownWord),
        ("do 1 share 0 2\n", Some(5), Cause::Missing),
        ("do 1 share 0 2 x\n", Some(5), Cause::BadNumber),
        ("end now\n", Some(1), Cause::TooMany),
        ("", None, Cause::Missing),
    ] {
        let whole = format!(in rt.alloc(); "{BEGIN}{text}")?;
        refuses(&rt, rt.alloc(), &whole, 7, word, cause);
    }
    Ok(())
}

#[test]
fn a_number_is_used_once(rt: HostRuntime) -> Result<(), Fail> {
    let more = "do 1 share 0 2 0\ndo 1 share 0 2 1\ndo 1 close 0\ndo 1 open 0 0\n";
    let once = format!(in rt.alloc(); "{BEGIN}{more}end\n")?;
    let found = refusal(rt.alloc(), once.as_bytes());
    assert_eq!(rt; found, None);
    let again = format!(in rt.alloc(); "{BEGIN}{more}do 1 share 0 2 0\n")?;
    refuses(&rt, rt.alloc(), &again, 11, Some(5), Cause::Twice);
    Ok(())
}

// The text with that many openings by client 1 in all, each closed.
fn openings(alloc: Global, number: u32) -> Result<String, Fail> {
    let mut text = String::from_str(alloc, BEGIN)?;
    for _ in 1..number {
        text.push_str("do 1 close 0\ndo 1 open 0 0\n")?;
    }
    text.push_str("end\n")?;
    Ok(text)
}

#[test]
fn a_client_opens_a_thousand_times(rt: HostRuntime) -> Result<(), Fail> {
    let most = openings(rt.alloc(), 1000)?;
    let found = refusal(rt.alloc(), most.as_bytes());
    assert_eq!(rt; found, None);
    let more = openings(rt.alloc(), 1001)?;
    refuses(&rt, rt.alloc(), &more, 2006, Some(2), Cause::TooMany);
    Ok(())
}

// The text with 20,000 calls, and what client 1 does besides.
fn most_calls(alloc: Global, more: &str) -> Result<String, Fail> {
    let begin = "semper files 1\nkernels 2\nfile 0 4\nfile 1 1\nclient 1\ndo 1 open 0 0\n";
    let mut text = String::from_str(alloc, begin)?;
    // A session and 4 asks; 8 calls at each read; an ask, and 2 calls at the last read.
    for _ in 0..2499 {
        text.push_str("do 1 read 0 0 16384\n")?;
    }
    text.push_str("do 1 open 1 1\ndo 1 read 0 0 1\n")?;
    text.push_str(more)?;
    text.push_str("end\n")?;
    Ok(text)
}

#[test]
fn there_are_20000_calls_at_most(rt: HostRuntime) -> Result<(), Fail> {
    let most = most_calls(rt.alloc(), "")?;
    let found = refusal(rt.alloc(), most.as_bytes());
    assert_eq!(rt; found, None);
    let more = most_calls(rt.alloc(), "do 1 close 1\n")?;
    refuses(&rt, rt.alloc(), &more, 2508, Some(2), Cause::TooMany);
    Ok(())
}
