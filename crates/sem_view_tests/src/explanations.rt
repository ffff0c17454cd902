use sem_draw::Ending;
use sem_explain::{explain_report, explain_trace};
use sem_run::judge;
use sem_samples::{REVOKE_REPORT, REVOKE_TRACE};
use std::test::Fail;

// A journal that ends too early.
const SHORT: &str = "semper report 1
semper trace 1
kernels 1
pe 0 0
vpe 0 0
call 0 exit
end
journal 0
audit
made 0
cut 0
held 0
end
";

// A text, the replacement for a part of it, whether the result is accepted, and what is said of it.
struct Case {
    text: &'static str,
    part: &'static str,
    by: &'static str,
    ending: Ending,
    said: &'static str,
}

const CASES: [Case; 7] = [
    Case {
        text: REVOKE_REPORT,
        part: "",
        by: "",
        ending: Ending::Done,
        said: "the report is accepted: it is that of a complete schedule\n",
    },
    Case {
        text: REVOKE_TRACE,
        part: "",
        by: "",
        ending: Ending::Done,
        said: "the trace is accepted\n",
    },
    Case {
        text: REVOKE_TRACE,
        part: "derive",
        by: "dervie",
        ending: Ending::Refused,
        said: "the trace is refused: line 6, word 3: \"dervie\" is no call; did you mean \"derive\"?
    call 0 dervie 0 1 0 1024 1
           ^^^^^^
",
    },
    Case {
        text: REVOKE_REPORT,
        part: "cut 0.0.1.0\n",
        by: "cut 0.0.1.0 reply 0 0\n",
        ending: Ending::Refused,
        said: "the report is refused: entry 1 is not the one that the machine makes
               0  0 call 0 0 derive 0 1 0 1024 1 grant 0.0.1.0 0.0.1.1 reply 0 0
  report       1  0 call 0 1 revoke 0 cut 0.0.1.0 reply 0 0
  machine      1  0 call 0 1 revoke 0 cut 0.0.1.0
",
    },
    Case {
        text: REVOKE_REPORT,
        part: "0 call 0 0 derive 0 1 0 1024 1 grant 0.0.1.0 0.0.1.1 reply 0 0",
        by: "0 resume 0 reply 0 0",
        ending: Ending::Refused,
        said: "the report is refused: entry 0 is not the one that the machine makes
  report       0  0 resume 0 reply 0 0
  machine      0  (the event is not enabled here)
",
    },
    Case {
        text: REVOKE_REPORT,
        part: "cut 1\n",
        by: "cut 2\n",
        ending: Ending::Refused,
        said: "the report is refused: line 16 is not that of the audit of this journal
  report  cut 2
  machine cut 1
",
    },
    Case {
        text: SHORT,
        part: "",
        by: "",
        ending: Ending::Refused,
        said: "the report is refused: the journal ends after 0 entries, and the machine goes on
  machine      0  0 call 0 0 exit reply 0 0
",
    },
];

#[test]
fn refusals_are_explained(rt: HostRuntime) -> Result<(), Fail> {
    for case in &CASES {
        let text = case.text.replacen(rt.alloc(), case.part, case.by, 1)?;
        let bytes = text.as_bytes();
        let answer = if bytes.starts_with(b"semper trace") {
            explain_trace(rt.alloc(), bytes)?
        } else {
            if bytes.len() > 1000 {
                return Err(Fail::from("a long text"));
            }
            let verdict = judge(rt.alloc(), bytes)?;
            explain_report(rt.alloc(), bytes, &verdict)?
        };
        assert_eq!(rt; answer.out.as_str(), case.said);
        assert!(rt; answer.ending == case.ending);
        assert!(rt; answer.error.is_empty());
    }
    Ok(())
}
