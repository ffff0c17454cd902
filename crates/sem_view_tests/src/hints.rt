use sem_files::read_files;
use sem_hint::{TextKind, kind_of, refusal_text};
use sem_reader::read_trace;
use sem_report::read_report;
use sem_trace::{Cause, TraceError, TraceFault};
use std::alloc::Global;
use std::test::Fail;

// A refused text, and what is said of it.
struct Case {
    text: &'static str,
    line: u64,
    cause: Cause,
    said: &'static str,
}

const CASES: [Case; 12] = [
    Case {
        text: "semper trace 1\nkernels 1\npe 0 0\nvpe 0 0\ncall 0 dervie 0 1\nend\n",
        line: 5,
        cause: Cause::UnknownWord,
        said: "line 5, word 3: \"dervie\" is no call; did you mean \"derive\"?
    call 0 dervie 0 1
           ^^^^^^
",
    },
    Case {
        text: "semper trace 1\nkernels 2\npe 0 2\nend\n",
        line: 3,
        cause: Cause::OutOfRange,
        said: "line 3, word 3: \"2\" is out of range; wanted here: the kernel, from 0 to 1
    pe 0 2
         ^
",
    },
    Case {
        text: "semper trace 1\nkernels 2\npe 0 1\n# again\npe 0 0\nend\n",
        line: 5,
        cause: Cause::Twice,
        said: "line 5, word 2: line 3 says this already\n    pe 0 0\n       ^\n",
    },
    Case {
        text: "semper trace 1\nkernels 1\npe 0 0\nvpe 0 3\nend\n",
        line: 4,
        cause: Cause::Undeclared,
        said: "line 4, word 3: no earlier line declares this PE\n    vpe 0 3\n          ^\n",
    },
    Case {
        text: "semper trace 1\nkernels 1\npe 0 0\nvpe 0 0\ncall 0 revoke\nend\n",
        line: 5,
        cause: Cause::Missing,
        said: "line 5: the line ends here; wanted here: the selector, from 0 to 255
    call 0 revoke
                 ^
",
    },
    Case {
        text: "semper report 1
semper trace 1
kernels 1
end
journal 1
0 cal 0 0 exit
audit
made 0
cut 0
held 0
end
",
        line: 6,
        cause: Cause::UnknownWord,
        said: "line 6, word 2: \"cal\" is no event; did you mean \"call\"?
    0 cal 0 0 exit
      ^^^
",
    },
    Case {
        text: "semper trace 1\nkernels 1\n",
        line: 3,
        cause: Cause::Missing,
        said: "the text ends behind line 2, before its last line \"end\"\n",
    },
    Case {
        text: "semper files 1\nkernels 1\nfile 0 1\nclient 1\ndo 1 opne 0 0\nend\n",
        line: 5,
        cause: Cause::UnknownWord,
        said: "line 5, word 3: \"opne\" is no act of a client; did you mean \"open\"?
    do 1 opne 0 0
         ^^^^
",
    },
    Case {
        text: "semper files 1\nkernels 1\nfile 0 1\nclient 1\ndo 1 open 0 0\ndo 1 open 0 0\nend\n",
        line: 6,
        cause: Cause::Twice,
        said: "line 6, word 4: this handle is open since line 5
    do 1 open 0 0
              ^
",
    },
    Case {
        text: "semper files 1
kernels 1
file 0 1
client 1
do 1 open 0 0
do 1 close 0
do 1 read 0 0 1
end
",
        line: 7,
        cause: Cause::Undeclared,
        said: "line 7, word 4: this handle is closed since line 6
    do 1 read 0 0 1
              ^
",
    },
    Case {
        text: "semper files 1
kernels 1
file 0 1
client 1
client 2
do 1 open 0 0
do 1 share 0 2 3
do 1 share 0 2 3
end
",
        line: 8,
        cause: Cause::Twice,
        said: "line 8, word 6: line 7 gave to this client under this number
    do 1 share 0 2 3
                   ^
",
    },
    Case {
        text: "semper files 1
kernels 1
file 0 1
client 1
do 1 open 0 0
do 1 read 0 4096 1
end
",
        line: 6,
        cause: Cause::OutOfRange,
        said: "line 6: the range ends behind the file
    do 1 read 0 4096 1
    ^^^^^^^^^^^^^^^^^^
",
    },
];

// The refusal of the text, if it is refused.
fn refusal(alloc: Global, text: &[u8], kind: TextKind) -> Option<TraceFault> {
    let refused = match kind {
        TextKind::Trace => match read_trace(alloc, text) {
            Err(error) => error,
            Ok(_) => return None,
        },
        TextKind::Report => match read_report(alloc, text) {
            Err(error) => error,
            Ok(_) => return None,
        },
        TextKind::Files => match read_files(alloc, text) {
            Err(error) => error,
            Ok(_) => return None,
        },
    };
    match refused {
        TraceError::Refused(fault) => Some(fault),
        TraceError::Memory => None,
    }
}

#[test]
fn refusals_are_told_in_words(rt: HostRuntime) -> Result<(), Fail> {
    for case in &CASES {
        let text = case.text.as_bytes();
        let kind = kind_of(rt.alloc(), text)?;
        let Some(fault) = refusal(rt.alloc(), text, kind) else {
            return Err(Fail::from(case.text));
        };
        assert_eq!(rt; (fault.line, fault.cause), (case.line, case.cause));
        let said = refusal_text(rt.alloc(), text, &fault, kind)?;
        assert_eq!(rt; said.as_str(), case.said);
    }
    Ok(())
}
