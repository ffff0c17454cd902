//! The words of a command line, and the texts of one line.

use sem_cli::{
    Command, Question, Status, command, ok, push_differing, push_going_on, push_summary, usage,
};
use sem_key::{Key, Kind};
use sem_msg::{Act, Detail, Entry, Event, Reply};
use std::test::Fail;

// The last key in rising key order.
const LAST: Key = Key {
    pe: 127,
    vpe: 127,
    kind: Kind::Sess,
    number: 4095,
};

// Lines with words separated by blanks, and the command of the words, if they are one.
const LINES: [(&str, Option<Command>); 47] = [
    (
        "check",
        Some(Command::Ask {
            question: Question::Check,
        }),
    ),
    (
        "contents",
        Some(Command::Ask {
            question: Question::Contents,
        }),
    ),
    (
        "query holder 127.127.5.4095 18446744073709551615",
        Some(Command::Ask {
            question: Question::Holder {
                key: LAST,
                count: u64::MAX,
            },
        }),
    ),
    (
        "query path 127.127.5.4095",
        Some(Command::Ask {
            question: Question::Path { key: LAST },
        }),
    ),
    (
        "query denied 3",
        Some(Command::Ask {
            question: Question::Denied { entry: 3 },
        }),
    ),
    ("run 0", Some(Command::Run { seed: 0 })),
    (
        "run 18446744073709551615",
        Some(Command::Run { seed: u64::MAX }),
    ),
    ("threads 7", Some(Command::Threads { seed: 7 })),
    ("files 7", Some(Command::Files { seed: 7 })),
    (
        "gen 0 64 312",
        Some(Command::Generate {
            seed: 0,
            vpes: 64,
            calls: 312,
        }),
    ),
    (
        "gen 0 128 156",
        Some(Command::Generate {
            seed: 0,
            vpes: 128,
            calls: 156,
        }),
    ),
    (
        "soak 9 1 20000",
        Some(Command::Soak {
            seed: 9,
            vpes: 1,
            calls: 20000,
        }),
    ),
    (
        "soak 9 1 0",
        Some(Command::Soak {
            seed: 9,
            vpes: 1,
            calls: 0,
        }),
    ),
    ("", None),
    ("check ", None),
    ("check 0", None),
    ("Check", None),
    ("walk 0", None),
    ("run", None),
    ("run ", None),
    ("run 01", None),
    ("run -1", None),
    ("run 0 0", None),
    ("run 18446744073709551616", None),
    ("threads", None),
    ("gen 0 1", None),
    ("gen 0 0 1", None),
    ("gen 0 129 1", None),
    ("gen 0 64 313", None),
    ("gen 0 1 20001", None),
    ("gen 0 1 18446744073709551615", None),
    ("gen 01 1 1", None),
    ("soak 0 1 1 1", None),
    ("files", None),
    ("files 0 1", None),
    ("query", None),
    ("query path", None),
    ("query path 0.0.1", None),
    ("query path 0.0.6.0", None),
    ("query path 128.0.1.0", None),
    ("query path 0.0.1.00", None),
    ("query denied -1", None),
    ("query denied 18446744073709551616", None),
    ("query holder 0.0.1.0", None),
    ("query path 0.0.1.0 4", None),
    ("query at 0.0.1.0 4", None),
    ("Query denied 3", None),
];

#[test]
fn ten_forms_are_commands_and_other_words_are_none(rt: HostRuntime) -> Result<(), Fail> {
    for (line, want) in LINES {
        let mut words = Vec::new(rt.alloc());
        for word in line.split(' ') {
            words.push(String::from_str(rt.alloc(), word)?)?;
        }
        assert_eq!(rt; command(&words), want, "{line:?}");
    }
    assert_eq!(rt; command(&[]), None);
    Ok(())
}

#[test]
fn statuses_have_numbers_and_messages_are_whole_lines(rt: HostRuntime) -> Result<(), Fail> {
    for (status, want) in [
        (Status::Done, 0),
        (Status::Usage, 1),
        (Status::TraceRefused, 2),
        (Status::ReadFault, 3),
        (Status::WriteFault, 4),
        (Status::Memory, 5),
        (Status::ReportRefused, 9),
    ] {
        assert_eq!(rt; status.number(), want, "of {status:?}");
    }
    assert_eq!(rt; ok(), b"ok\n".as_slice());
    let forms = "run SEED | threads SEED | check | gen SEED VPES CALLS | soak SEED VPES CALLS";
    let asked = "contents | files SEED | query holder KEY N | query path KEY | query denied N";
    let line = format!(in rt.alloc(); "usage: semper {forms} | {asked}\n")?;
    assert_eq!(rt; usage(), line.as_bytes());
    let mut out = Vec::new(rt.alloc());
    push_summary(&mut out, 8, 800, 799, 3)?;
    let lines = "soak 1\nvpes 8\ncalls 800\nanswered 799\nstray 3\n";
    assert_eq!(rt; out.as_slice(), lines.as_bytes());
    Ok(())
}

// The lines that refuse a report for these replies.
const REFUSED: &str = "\
report refused: entry 2: entered 0 resume 0 reply 0 3; replayed 0 resume 0 reply 0 0
report refused: entry 0: entered 0 resume 1 reply 1 0; replayed not enabled
report refused: entry 7: entered end; replayed 0 resume 5 reply 5 15
";

#[test]
fn a_refused_report_is_told_by_its_entry(rt: HostRuntime) -> Result<(), Fail> {
    let mut entries = Vec::new(rt.alloc());
    for (vpe, code) in [(0, 3), (0, 0), (1, 0), (5, 15)] {
        entries.push(Entry {
            event: Event {
                kernel: 0,
                act: Act::Resume { vpe },
            },
            detail: Detail::Nothing,
            grant: None,
            cut: None,
            reply: Some(Reply { vpe, code }),
        })?;
    }
    let [entered, replayed, other, next] = entries.as_slice() else {
        return Err(Fail::new("four entries"));
    };
    let mut out = Vec::new(rt.alloc());
    push_differing(&mut out, 2, entered, &Some(*replayed))?;
    push_differing(&mut out, 0, other, &None)?;
    push_going_on(&mut out, 7, next)?;
    assert_eq!(rt; out.as_slice(), REFUSED.as_bytes());
    Ok(())
}
