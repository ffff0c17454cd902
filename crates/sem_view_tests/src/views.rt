use crate::trees::CLEARED;
use sem_draw::{Ending, Picture};
use sem_msg::Entry;
use sem_report::read_report;
use sem_samples::{OBTAIN_REPORT, REVOKE_REPORT};
use sem_view::{
    Request, chart_rows, count_between, count_code, count_event, count_message, respond,
};
use std::alloc::Global;
use std::test::Fail;

// Two counts of events, two of messages, two of messages between kernels, and one of replies.
fn counts(entries: &[Entry]) -> [usize; 7] {
    [
        count_event(entries, 6),
        count_event(entries, 7),
        count_message(entries, 1),
        count_message(entries, 9),
        count_between(entries, 1, 0),
        count_between(entries, 1, 1),
        count_code(entries, 0),
    ]
}

#[test]
fn entries_are_counted(rt: HostRuntime) -> Result<(), Fail> {
    let Ok((_, journal, _)) = read_report(rt.alloc(), OBTAIN_REPORT.as_bytes()) else {
        return Err(Fail::from("no report"));
    };
    assert_eq!(rt; counts(journal.as_slice()), [2, 0, 1, 0, 1, 0, 1]);
    Ok(())
}

#[test]
fn the_rows_of_a_chart_are_those_of_its_entries(rt: HostRuntime) -> Result<(), Fail> {
    let Ok((_, journal, _)) = read_report(rt.alloc(), OBTAIN_REPORT.as_bytes()) else {
        return Err(Fail::from("no report"));
    };
    let entries = journal.as_slice();
    assert!(rt; entries.len() >= 9);
    let rows = chart_rows(rt.alloc(), entries, 7, 9)?;
    assert_eq!(rt; rows.len(), 2);
    assert_eq!(rt; rows.as_slice().first().map(|row| row.number), Some(7));
    Ok(())
}

// The report as a chart.
const CHART: &str = "\
\x20      K0       v0
   0   |<------>:        derive 0 1 0 1024 1; grant 0.0.1.0 > 0.0.1.1; Ok
   1   |<-------+        revoke 0; cut 0.0.1.0
   2   +------->#        goes on; Ok
";

// Its last entry.
const LAST: &str = "\
\x20      K0       v0
   2   +------->#        goes on; Ok
";

const NO_ENTRIES: &str = "there are no such entries: the report has 3, from 0 on\n";

const NO_REPORT: &str =
    "the input is a trace, and a report is wanted: semper run 0 makes one of it\n";

// A chart of entries, without box characters: the first and the last one, the one kernel shown, and
// the answer; of an error a part.
struct Shown {
    report: &'static str,
    from: Option<u64>,
    to: Option<u64>,
    kernel: Option<u32>,
    ending: Ending,
    out: &'static str,
    error: &'static str,
}

const CHARTS: [Shown; 5] = [
    Shown {
        report: REVOKE_REPORT,
        from: None,
        to: None,
        kernel: None,
        ending: Ending::Done,
        out: CHART,
        error: "",
    },
    Shown {
        report: REVOKE_REPORT,
        from: Some(2),
        to: Some(2),
        kernel: Some(0),
        ending: Ending::Done,
        out: LAST,
        error: "",
    },
    Shown {
        report: REVOKE_REPORT,
        from: Some(4),
        to: None,
        kernel: None,
        ending: Ending::WrongWords,
        out: "",
        error: NO_ENTRIES,
    },
    Shown {
        report: REVOKE_REPORT,
        from: None,
        to: None,
        kernel: Some(1),
        ending: Ending::WrongWords,
        out: "",
        error: "",
    },
    Shown {
        report: "semper trace 1\n",
        from: None,
        to: None,
        kernel: Some(1),
        ending: Ending::Refused,
        out: "",
        error: NO_REPORT,
    },
];

#[test]
fn a_chart_shows_each_entry_and_what_is_not_there_is_refused(rt: HostRuntime) -> Result<(), Fail> {
    for shown in &CHARTS {
        let mut kernels = Vec::new(rt.alloc());
        if let Some(kernel) = shown.kernel {
            kernels.push(kernel)?;
        }
        let request = Request::Chart {
            picture: Picture::Plain,
            from: shown.from,
            to: shown.to,
            kernels,
        };
        let answer = respond(rt.alloc(), &request, shown.report.as_bytes())?;
        assert_eq!(rt; answer.ending, shown.ending);
        assert_eq!(rt; answer.out.as_str(), shown.out);
        assert!(rt;
            answer.error.as_str().contains(shown.error),
            "{:?}",
            answer.error
        );
    }
    Ok(())
}

// What a clear waits for at the kernel of a child.
const WAITS: &str = "\
v0 call 3: clear 0: answered 9 entries later
    17  0 call 0 3 clear 0 cut 0.0.1.0
    20  0 flush 1 revoke-req 3.3.1.0 0
    21  1 fetch 0 revoke-req 3.3.1.0 0
    22  1 handle 0 revoke-req 3.3.1.0 0
    23  1 flush 0 revoke-done 0
    24  0 fetch 1 revoke-done 0
    25  0 handle 1 revoke-done 0
    26  0 resume 0 reply 0 0
";

// What is said of the counts in the report of a derive and a revoke.
fn stats(alloc: Global, is_json: bool) -> Result<String, Fail> {
    Ok(respond(alloc, &Request::Stats { is_json }, REVOKE_REPORT.as_bytes())?.out)
}

#[test]
fn counts_are_told(rt: HostRuntime) -> Result<(), Fail> {
    let revoke = "[{\"call\":\"revoke\",\"entry\":1,\"key\":\"0.0.1.0\",\"taken\":1,\"vpe\":0}]";
    for (is_json, said) in [
        (true, "\"call\":2"),
        (true, "\"Ok\":2"),
        (true, revoke),
        (false, "  resume"),
    ] {
        let text = stats(rt.alloc(), is_json)?;
        assert!(rt; text.as_str().contains(said), "{said}");
    }
    Ok(())
}

#[test]
fn waits_are_told(rt: HostRuntime) -> Result<(), Fail> {
    let request = Request::Waits {
        vpe: Some(0),
        call: None,
    };
    let answer = respond(rt.alloc(), &request, CLEARED)?;
    assert_eq!(rt; answer.out.as_str(), WAITS);
    Ok(())
}
