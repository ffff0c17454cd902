use crate::trees::{
    BEFORE_REVOKES, BEHIND_REVOKES, CLEARED, KILLED, REVOKE_OF_CHILD, REVOKE_OF_ROOT, WRONG,
};
use sem_draw::{Answer, Ending, Picture};
use sem_story::{StoryRequest, key_of, story};
use sem_tree::{TreeForm, TreeRequest, tree};
use std::alloc::Global;
use std::test::Fail;

// The life of a root that is cleared.
const ROOT: &str = "\
0.0.1.0  memory, 4096 bytes from 0, rwx; of v0 of K0; a root

  entry
  start  |  declared as a root, at selector 0         root 0 0 mem 0 4096 7
      1  |  2.2.1.0 made from it, for v2              0 upcall 0 2 yes grant 0.0.1.0 2.2.1.0
      7  |  3.3.1.0 made from it, for v3              0 upcall 0 3 yes grant 0.0.1.0 3.3.1.0
     12  |  bound to endpoint 0                       0 call 0 0 bind 0 0 reply 0 0
     17  #  unbound from endpoint 0                   0 call 0 3 clear 0 cut 0.0.1.0
     17  #  marked by job 0 of K0                     0 call 0 3 clear 0 cut 0.0.1.0
     25  |  not marked any more: the clear has ended  0 handle 1 revoke-done 0
     29  |  bound to endpoint 0                       0 call 0 6 bind 0 0 reply 0 0
";

// The life of a key that a clear of its parent takes.
const CHILD: &str = "\
3.3.1.0  memory, 4096 bytes from 0, rwx; of v3 of K1; made from 0.0.1.0

  entry
      7  :  granted by \"obtain 1 0 0\", call 0 of v3     0 upcall 0 3 yes grant 0.0.1.0 3.3.1.0
         :  (entry 3)
      7  :  on its way to K1                            0 upcall 0 3 yes grant 0.0.1.0 3.3.1.0
     10  :  arrived at K1                               1 handle 0 obtain-ok 0.0.1.0 3.3.1.0 mem 0
         :                                              4096 7
     11  |  held at selector 1                          1 resume 3 reply 3 0
     22  x  gone by \"clear 0\", call 3 of v0 (entry 17)  1 handle 0 revoke-req 3.3.1.0 0
";

const TOO_EARLY: &str = "3.3.1.0 was never made in these 7 entries\n";

const TOO_LATE: &str = "there are no 33 entries: the report has 32\n";

// A key, after how many entries of a report its life is asked for, and the answer.
struct Case {
    key: &'static str,
    at: Option<u64>,
    ending: Ending,
    out: &'static str,
    error: &'static str,
}

const CASES: [Case; 4] = [
    Case {
        key: "0.0.1.0",
        at: None,
        ending: Ending::Done,
        out: ROOT,
        error: "",
    },
    Case {
        key: "3.3.1.0",
        at: None,
        ending: Ending::Done,
        out: CHILD,
        error: "",
    },
    Case {
        key: "3.3.1.0",
        at: Some(7),
        ending: Ending::WrongWords,
        out: "",
        error: TOO_EARLY,
    },
    Case {
        key: "3.3.1.0",
        at: Some(33),
        ending: Ending::WrongWords,
        out: "",
        error: TOO_LATE,
    },
];

#[test]
fn the_lives_of_keys_are_told(rt: HostRuntime) -> Result<(), Fail> {
    for case in &CASES {
        let Some(key) = key_of(case.key) else {
            return Err(Fail::from("no key"));
        };
        let request = StoryRequest {
            picture: Picture::Plain,
            key,
            at: case.at,
        };
        let answer = story(rt.alloc(), &request, CLEARED)?;
        assert!(rt; answer.ending == case.ending);
        assert_eq!(rt; answer.out.as_str(), case.out);
        assert_eq!(rt; answer.error.as_str(), case.error);
    }
    for word in ["", "0.0.1", "0.0.6.0", "0.0.1.4096", "00.0.1.0", "0.0.1.0 "] {
        assert!(rt; key_of(word).is_none(), "{word}");
    }
    Ok(())
}

// The entries that two revokes of one line begin with, and what is said of the three keys then.
const REVOKES: [(&str, &str, [&str; 3], &str); 2] = [
    (
        REVOKE_OF_ROOT,
        REVOKE_OF_CHILD,
        [
            "0.0.1.0  gone from v0 of K0 by \"revoke 0\", call 0 of v0 (entry 12);",
            "1.1.1.0  gone from v1 of K0 by \"revoke 0\", call 0 of v0 (entry 12);",
            "2.2.1.0  gone from v2 of K1 by \"revoke 0\", call 0 of v0 (entry 12);",
        ],
        "gone by \"revoke 0\", call 0 of v0 (entry 12)",
    ),
    (
        REVOKE_OF_CHILD,
        REVOKE_OF_ROOT,
        [
            "0.0.1.0  gone from v0 of K0 by \"revoke 0\", call 0 of v0 (entry 13);",
            "1.1.1.0  gone from v1 of K0 by \"revoke 1\", call 2 of v1 (entry 12);",
            "2.2.1.0  gone from v2 of K1 by \"revoke 1\", call 2 of v1 (entry 12);",
        ],
        "gone by \"revoke 1\", call 2 of v1 (entry 12)",
    ),
];

#[test]
fn a_key_goes_by_the_first_that_takes_its_line(rt: HostRuntime) -> Result<(), Fail> {
    let (Some(key), Some(killed)) = (key_of("2.2.1.0"), key_of("1.1.1.0")) else {
        return Err(Fail::from("no keys"));
    };
    let forest = TreeRequest {
        form: TreeForm::Drawn {
            picture: Picture::Plain,
        },
        at: Some(25),
    };
    let mut life = StoryRequest {
        picture: Picture::Plain,
        key,
        at: None,
    };
    for (first, second, gone, by) in REVOKES {
        let report = format!(in rt.alloc(); "{BEFORE_REVOKES}{first}{second}{BEHIND_REVOKES}")?;
        let text = tree(rt.alloc(), &forest, report.as_bytes())?.out;
        for said in gone {
            assert!(rt; text.as_str().contains(said), "{text}");
        }
        let text = story(rt.alloc(), &life, report.as_bytes())?.out;
        assert!(rt; text.as_str().contains(by), "{text}");
    }
    life.key = killed;
    let text = story(rt.alloc(), &life, KILLED)?.out;
    let said = "\n      8  x  gone by the kill of v1 (entry 8)         1 kill 1\n";
    assert!(rt; text.as_str().contains(said), "{text}");
    Ok(())
}

// The life of the root in a report, as a picture, after that many entries.
fn picture(alloc: Global, report: &[u8], at: Option<u64>) -> Result<Answer, Fail> {
    let Some(key) = key_of("0.0.1.0") else {
        return Err(Fail::from("no key"));
    };
    let request = StoryRequest {
        picture: Picture::Svg,
        key,
        at,
    };
    Ok(story(alloc, &request, report)?)
}

#[test]
fn a_story_is_a_picture(rt: HostRuntime) -> Result<(), Fail> {
    let answer = picture(rt.alloc(), CLEARED, None)?;
    let text = answer.out.as_str();
    assert!(rt; text.starts_with("<svg ") && text.ends_with("</svg>\n"));
    for said in [
        ">marked by job 0 of K0</text>",
        ">0 call 0 3 clear 0 cut 0.0.1.0</text>",
    ] {
        assert!(rt; text.contains(said), "{said}");
    }
    for (report, at, ending) in [
        (WRONG, None, Ending::Refused),
        (WRONG, Some(0), Ending::Done),
        (b"semper".as_slice(), Some(0), Ending::Refused),
    ] {
        assert_eq!(rt; picture(rt.alloc(), report, at)?.ending, ending);
    }
    Ok(())
}
