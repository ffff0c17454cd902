use sem_draw::{Answer, Ending, Picture};
use sem_key::{Key, Kind, OutOfMemory};
use sem_report::read_report;
use sem_tree::{TreeForm, TreeRequest, forest_lines, takes, tree, tree_rows};
use std::alloc::Global;
use std::test::Fail;

// A revoke takes what a call at the other kernel is ready to install.
const REVOKED: &[u8] = b"semper report 1
semper trace 1
kernels 2
pe 0 0
pe 1 1
vpe 0 0
vpe 1 1
root 0 0 mem 0 4096 7
call 0 revoke 0
call 1 obtain 5 0 0
end
journal 17
1 call 1 0 obtain 5 0 0
1 flush 0 obtain-req 1.1.0 sel 0 0
0 fetch 1 obtain-req 1.1.0 sel 0 0
0 handle 1 obtain-req 1.1.0 sel 0 0
0 upcall 0 1 yes grant 0.0.1.0 1.1.1.0
0 flush 1 obtain-ok 0.0.1.0 1.1.1.0 mem 0 4096 7
1 fetch 0 obtain-ok 0.0.1.0 1.1.1.0 mem 0 4096 7
1 handle 0 obtain-ok 0.0.1.0 1.1.1.0 mem 0 4096 7
0 call 0 0 revoke 0 cut 0.0.1.0
0 flush 1 revoke-req 1.1.1.0 0
1 fetch 0 revoke-req 1.1.1.0 0
1 handle 0 revoke-req 1.1.1.0 0
1 resume 1 reply 1 11
1 flush 0 revoke-done 0
0 fetch 1 revoke-done 0
0 handle 1 revoke-done 0
0 resume 0 reply 0 0
audit
made 2
cut 1
held 0
end
";

/// A clear unbinds the endpoints of its root and of all that goes, and no others.
pub const CLEARED: &[u8] = b"semper report 1
semper trace 1
kernels 2
pe 0 0
pe 1 0
pe 2 0
pe 3 1
vpe 0 0
vpe 1 1
vpe 2 2
vpe 3 3
root 0 0 mem 0 4096 7
root 0 3 mem 4096 16 7
call 0 bind 0 0
call 0 bind 1 3
call 0 write 0 0 16
call 0 clear 0
call 0 write 0 0 16
call 0 write 1 0 16
call 0 bind 0 0
call 0 write 0 0 16
call 2 obtain 1 0 0
call 2 bind 0 1
call 2 write 0 0 16
call 2 write 0 0 16
call 2 bind 1 1
call 2 bind 1 1
call 3 obtain 1 0 0
end
journal 32
0 call 2 0 obtain 1 0 0
0 upcall 0 2 yes grant 0.0.1.0 2.2.1.0
0 resume 2 reply 2 0
1 call 3 0 obtain 1 0 0
1 flush 0 obtain-req 3.3.0 sel 0 0
0 fetch 1 obtain-req 3.3.0 sel 0 0
0 handle 1 obtain-req 3.3.0 sel 0 0
0 upcall 0 3 yes grant 0.0.1.0 3.3.1.0
0 flush 1 obtain-ok 0.0.1.0 3.3.1.0 mem 0 4096 7
1 fetch 0 obtain-ok 0.0.1.0 3.3.1.0 mem 0 4096 7
1 handle 0 obtain-ok 0.0.1.0 3.3.1.0 mem 0 4096 7
1 resume 3 reply 3 0
0 call 0 0 bind 0 0 reply 0 0
0 call 0 1 bind 1 3 reply 0 0
0 call 0 2 write 0 0 16 reply 0 0
0 call 2 1 bind 0 1 reply 2 0
0 call 2 2 write 0 0 16 reply 2 0
0 call 0 3 clear 0 cut 0.0.1.0
0 call 2 3 write 0 0 16 reply 2 12
0 call 2 4 bind 1 1 reply 2 4
0 flush 1 revoke-req 3.3.1.0 0
1 fetch 0 revoke-req 3.3.1.0 0
1 handle 0 revoke-req 3.3.1.0 0
1 flush 0 revoke-done 0
0 fetch 1 revoke-done 0
0 handle 1 revoke-done 0
0 resume 0 reply 0 0
0 call 0 4 write 0 0 16 reply 0 12
0 call 0 5 write 1 0 16 reply 0 0
0 call 0 6 bind 0 0 reply 0 0
0 call 0 7 write 0 0 16 reply 0 0
0 call 2 5 bind 1 1 reply 2 3
audit
made 4
cut 2
held 2
key 0.0.1.0 0
key 0.0.1.1 3
end
";

/// A VPE is killed when its obtained capability has arrived and is not yet installed.
pub const KILLED: &[u8] = b"semper report 1
semper trace 1
kernels 2
pe 0 0
pe 1 1
vpe 0 0
vpe 1 1
root 0 0 mem 0 4096 7
kill 1 0
call 1 obtain 5 0 0
end
journal 12
1 call 1 0 obtain 5 0 0
1 flush 0 obtain-req 1.1.0 sel 0 0
0 fetch 1 obtain-req 1.1.0 sel 0 0
0 handle 1 obtain-req 1.1.0 sel 0 0
0 upcall 0 1 yes grant 0.0.1.0 1.1.1.0
0 flush 1 obtain-ok 0.0.1.0 1.1.1.0 mem 0 4096 7
1 fetch 0 obtain-ok 0.0.1.0 1.1.1.0 mem 0 4096 7
1 handle 0 obtain-ok 0.0.1.0 1.1.1.0 mem 0 4096 7
1 kill 1
1 flush 0 orphan 0.0.1.0 1.1.1.0
0 fetch 1 orphan 0.0.1.0 1.1.1.0
0 handle 1 orphan 0.0.1.0 1.1.1.0
audit
made 2
cut 1
held 1
key 0.0.1.0 0
end
";

// What is said of keys after that many entries.
struct Case {
    at: u64,
    said: [&'static str; 2],
}

const OF_REVOKED: [Case; 6] = [
    Case {
        at: 4,
        said: [
            "0.0.1.0  held by v0 of K0 at selector 0; memory, 4096 bytes from 0, rwx\n",
            "",
        ],
    },
    Case {
        at: 5,
        said: [
            "0.0.1.0  held by v0 of K0 at selector 0;",
            "\n`- 1.1.1.0  on its way to v1 of K1; memory, 4096 bytes from 0, rwx\n",
        ],
    },
    Case {
        at: 8,
        said: ["0.0.1.0  held by", "\n`- 1.1.1.0  on its way to v1 of K1;"],
    },
    Case {
        at: 9,
        said: [
            "0.0.1.0  marked, held by v0 of K0 at selector 0, to go by \"revoke 0\", call 0 of v0 (entry 8);",
            "\n`- 1.1.1.0  on its way to v1 of K1, to go by \"revoke 0\", call 0 of v0 (entry 8);",
        ],
    },
    Case {
        at: 12,
        said: [
            "0.0.1.0  marked, held by",
            "\n`- 1.1.1.0  gone from v1 of K1 by \"revoke 0\", call 0 of v0 (entry 8);",
        ],
    },
    Case {
        at: 17,
        said: [
            "0.0.1.0  gone from v0 of K0 by \"revoke 0\", call 0 of v0 (entry 8);",
            "\n`- 1.1.1.0  gone from",
        ],
    },
];

const OF_CLEARED: [Case; 5] = [
    Case {
        at: 17,
        said: [
            "0.0.1.0  held by v0 of K0 at selector 0 and endpoint 0;",
            "|- 2.2.1.0  held by v2 of K0 at selector 1 and endpoint 0;",
        ],
    },
    Case {
        at: 18,
        said: [
            "0.0.1.0  marked, held by v0 of K0 at selector 0, until the end of \"clear 0\", call 3 of v0",
            "|- 2.2.1.0  marked, held by v2 of K0 at selector 1, to go by \"clear 0\",",
        ],
    },
    Case {
        at: 18,
        said: [
            "`- 3.3.1.0  held by v3 of K1 at selector 1, to go by \"clear 0\", call 3 of v0 (entry 17);",
            "0.0.1.1  held by v0 of K0 at selector 3 and endpoint 1;",
        ],
    },
    Case {
        at: 27,
        said: [
            "0.0.1.0  held by v0 of K0 at selector 0;",
            "`- 3.3.1.0  gone from v3 of K1 by \"clear 0\", call 3 of v0 (entry 17);",
        ],
    },
    Case {
        at: 30,
        said: [
            "0.0.1.0  held by v0 of K0 at selector 0 and endpoint 0;",
            "0.0.1.1  held by v0 of K0 at selector 3 and endpoint 1; memory, 16 bytes from 4096, rwx",
        ],
    },
];

const OF_KILLED: [Case; 3] = [
    Case {
        at: 8,
        said: [
            "0.0.1.0  held by v0 of K0 at selector 0; memory",
            "`- 1.1.1.0  on its way to v1 of K1; memory",
        ],
    },
    Case {
        at: 9,
        said: [
            "0.0.1.0  held by v0 of K0 at selector 0; memory",
            "`- 1.1.1.0  gone from v1 of K1 by the kill of v1 (entry 8); memory",
        ],
    },
    Case {
        at: 12,
        said: [
            "0.0.1.0  held by v0 of K0 at selector 0; memory",
            "`- 1.1.1.0  gone from v1 of K1 by the kill of v1 (entry 8); memory",
        ],
    },
];

#[test]
fn forests_tell_what_has_become_of_keys(rt: HostRuntime) -> Result<(), Fail> {
    for (report, cases) in [
        (REVOKED, OF_REVOKED.as_slice()),
        (CLEARED, OF_CLEARED.as_slice()),
        (KILLED, OF_KILLED.as_slice()),
    ] {
        for case in cases {
            let request = TreeRequest {
                form: TreeForm::Drawn {
                    picture: Picture::Plain,
                },
                at: Some(case.at),
            };
            let text = tree(rt.alloc(), &request, report)?.out;
            for said in case.said {
                assert!(rt; text.as_str().contains(said), "{text}");
            }
        }
    }
    Ok(())
}

// The forest after 4 entries, and what the fifth and the sixth change.
const CHANGES: &str =
    r#"{"after":4,"keys":[{"place":0,"key":"0.0.1.0","state":"held","text":"held by v0 of K0 at selector 0; memory, 4096 bytes from 0, rwx"}]}
{"after":5,"keys":[{"place":1,"key":"1.1.1.0","parent":0,"state":"on its way","text":"on its way to v1 of K1; memory, 4096 bytes from 0, rwx"}]}
{"after":6,"keys":[]}
"#;

#[test]
fn a_line_of_forests_tells_what_an_entry_changes(rt: HostRuntime) -> Result<(), Fail> {
    let Ok((setup, journal, _)) = read_report(rt.alloc(), REVOKED) else {
        return Err(Fail::from("no report"));
    };
    let Ok(lines) = forest_lines(rt.alloc(), &setup, &journal, 4, 6) else {
        return Err(Fail::from("no forests"));
    };
    assert!(rt; lines.as_str() == CHANGES, "{lines}");
    Ok(())
}

/// A journal that no run makes: the revoke comes before the derive.
pub const WRONG: &[u8] = b"semper report 1
semper trace 1
kernels 1
pe 0 0
vpe 0 0
root 0 0 mem 0 4096 7
call 0 derive 0 1 0 1024 1
call 0 revoke 0
end
journal 1
0 call 0 1 revoke 0 cut 0.0.1.0
audit
made 1
cut 1
held 0
end
";

#[test]
fn what_no_run_makes_is_refused(rt: HostRuntime) -> Result<(), Fail> {
    let cases = [
        (None, WRONG, Ending::Refused, "entry 0 is not the one"),
        (
            Some(2),
            WRONG,
            Ending::WrongWords,
            "there are no 2 entries: the report has 1\n",
        ),
        (
            Some(2),
            b"semper".as_slice(),
            Ending::Refused,
            "the input is no report: line 1",
        ),
    ];
    for (at, report, ending, said) in cases {
        let answer = drawn(rt.alloc(), at, report)?;
        assert_eq!(rt; answer.ending, ending);
        assert_eq!(rt; answer.out.as_str(), "");
        assert!(rt; answer.error.as_str().starts_with(said), "{said}");
    }
    Ok(())
}

#[test]
fn what_stands_before_a_wrong_entry_is_drawn(rt: HostRuntime) -> Result<(), Fail> {
    let answer = drawn(rt.alloc(), Some(0), WRONG)?;
    assert_eq!(rt; answer.ending, Ending::Done);
    for part in [
        ">0.0.1.0</text>",
        "<title>semper-view story 0.0.1.0</title>",
    ] {
        assert!(rt; answer.out.as_str().contains(part), "{part}");
    }
    Ok(())
}

// The forest after that many entries, as a picture.
fn drawn(alloc: Global, at: Option<u64>, report: &[u8]) -> Result<Answer, OutOfMemory> {
    let request = TreeRequest {
        form: TreeForm::Drawn {
            picture: Picture::Svg,
        },
        at,
    };
    tree(alloc, &request, report)
}

// A root in the second report.
const ROOT: Key = Key {
    pe: 0,
    vpe: 0,
    kind: Kind::Mem,
    number: 0,
};

// Another root in it.
const OTHER_ROOT: Key = Key { number: 1, ..ROOT };

// The first child of the root.
const CHILD: Key = Key {
    pe: 2,
    vpe: 2,
    ..ROOT
};

#[test]
fn rows_are_made_keys_of_which_a_clear_takes_what_was_granted_before(
    rt: HostRuntime,
) -> Result<(), Fail> {
    let Ok((setup, journal, _)) = read_report(rt.alloc(), CLEARED) else {
        return Err(Fail::from("no report"));
    };
    let rows = tree_rows(rt.alloc(), &setup, &journal, 4)?;
    let wanted = [(ROOT, None), (OTHER_ROOT, None), (CHILD, Some(ROOT))];
    assert_eq!(rt; rows.len(), wanted.len());
    for (row, (key, parent)) in rows.as_slice().iter().zip(wanted) {
        assert!(rt; row.key == key && row.parent == parent);
    }
    let Some(clear) = journal.get(17) else {
        return Err(Fail::from("no entry"));
    };
    assert!(rt; takes(&clear, &CHILD, &Some((ROOT, CHILD))));
    assert!(rt; !takes(&clear, &CHILD, &None));
    assert!(rt; !takes(&clear, &ROOT, &None));
    Ok(())
}

/// Two revokes of one line, without the entries that they begin with.
pub const BEFORE_REVOKES: &str = "semper report 1
semper trace 1
kernels 2
pe 0 0
pe 1 0
pe 2 1
vpe 0 0
vpe 1 1
vpe 2 2
root 0 0 mem 0 4096 7
call 0 revoke 0
call 1 obtain 1 0 0
call 1 delegate 1 2 4
call 1 revoke 1
end
journal 25
0 call 1 0 obtain 1 0 0
0 upcall 0 1 yes grant 0.0.1.0 1.1.1.0
0 resume 1 reply 1 0
0 call 1 1 delegate 1 2 4
0 flush 1 delegate-req 1.1.1.0 mem 0 4096 7 2 4
1 fetch 0 delegate-req 1.1.1.0 mem 0 4096 7 2 4
1 handle 0 delegate-req 1.1.1.0 mem 0 4096 7 2 4
1 upcall 2 1 yes
1 flush 0 delegate-prepared 1.1.1.0 2.2.1.0
0 fetch 1 delegate-prepared 1.1.1.0 2.2.1.0
0 handle 1 delegate-prepared 1.1.1.0 2.2.1.0
0 resume 1 grant 1.1.1.0 2.2.1.0 reply 1 0
";

pub const REVOKE_OF_ROOT: &str = "0 call 0 0 revoke 0 cut 0.0.1.0
";

pub const REVOKE_OF_CHILD: &str = "0 call 1 2 revoke 1 cut 1.1.1.0
";

pub const BEHIND_REVOKES: &str = "0 flush 1 ack 2.2.1.0 yes
1 fetch 0 ack 2.2.1.0 yes
1 handle 0 ack 2.2.1.0 yes
0 flush 1 revoke-req 2.2.1.0 0
1 fetch 0 revoke-req 2.2.1.0 0
1 handle 0 revoke-req 2.2.1.0 0
1 flush 0 revoke-done 0
0 fetch 1 revoke-done 0
0 handle 1 revoke-done 0
0 resume 0 reply 0 0
0 resume 1 reply 1 0
audit
made 3
cut 2
held 0
end
";
