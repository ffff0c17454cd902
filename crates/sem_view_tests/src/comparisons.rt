use crate::trees::CLEARED;
use sem_compare::{outcomes_merged, report_differences};
use sem_draw::Ending;
use std::test::Fail;

// A VPE clears its memory while another one obtains it: the first lines of the report of a run.
const CLEAR_AND_OBTAIN: &str = "\
semper report 1
semper trace 1
kernels 1
pe 0 0
pe 1 0
vpe 0 0
vpe 1 1
root 0 0 mem 0 4096 7
call 0 clear 0
call 1 obtain 1 0 0
end
journal 5
";

// The obtain is granted first.
const GRANTED_FIRST: &str = "\
0 call 1 0 obtain 1 0 0
0 upcall 0 1 yes grant 0.0.1.0 1.1.1.0
0 call 0 0 clear 0 cut 0.0.1.0
0 resume 1 reply 1 0
0 resume 0 reply 0 0
audit
made 2
cut 1
held 1
key 0.0.1.0 0
end
";

// The clear comes first.
const CLEARED_FIRST: &str = "\
0 call 1 0 obtain 1 0 0
0 call 0 0 clear 0 cut 0.0.1.0
0 upcall 0 1 yes grant 0.0.1.0 1.1.1.0
0 resume 1 reply 1 0
0 resume 0 reply 0 0
audit
made 2
cut 0
held 2
key 0.0.1.0 0
key 1.1.1.0 1
end
";

const FIRST_SAMPLE: &str = "{\"trace\":\"t\",\"seeds\":[{\"from\":0,\"count\":2}],\
    \"histories\":null,\"outcomes\":[{\"count\":2,\"seed\":0,\"calls\":[],\"held\":[]}]}\n";

const SECOND_SAMPLE: &str = "{\"trace\":\"t\",\"seeds\":[{\"from\":2,\"count\":3}],\
    \"histories\":null,\"outcomes\":[{\"count\":1,\"seed\":4,\"calls\":[],\"held\":[]},\
    {\"count\":2,\"seed\":2,\"calls\":[],\"held\":[{\"key\":\"0.0.1.0\",\"selector\":3}]}]}\n";

const BOTH_SAMPLES: &str = "{\"trace\":\"t\",\"seeds\":[{\"from\":0,\"count\":2},\
    {\"from\":2,\"count\":3}],\"histories\":null,\
    \"outcomes\":[{\"count\":3,\"seed\":0,\"calls\":[],\"held\":[]},\
    {\"count\":2,\"seed\":2,\"calls\":[],\"held\":[{\"key\":\"0.0.1.0\",\"selector\":3}]}]}\n";

#[test]
fn two_reports_differ_in_an_entry_and_in_what_is_held(rt: HostRuntime) -> Result<(), Fail> {
    let granted = format!(in rt.alloc(); "{CLEAR_AND_OBTAIN}{GRANTED_FIRST}")?;
    let cleared = format!(in rt.alloc(); "{CLEAR_AND_OBTAIN}{CLEARED_FIRST}")?;
    let answer = report_differences(rt.alloc(), granted.as_bytes(), cleared.as_bytes())?;
    let wanted = "\
the first entry is the same
entry 1 of A: 0 upcall 0 1 yes grant 0.0.1.0 1.1.1.0
entry 1 of B: 0 call 0 0 clear 0 cut 0.0.1.0
only B holds 1.1.1.0, at selector 1
";
    assert_eq!(rt; answer.out.as_str(), wanted);
    let answer = report_differences(rt.alloc(), granted.as_bytes(), CLEARED)?;
    assert!(rt; answer.ending == Ending::WrongWords);
    Ok(())
}

#[test]
fn samples_are_put_together_once(rt: HostRuntime) -> Result<(), Fail> {
    let said = "sample 1 has seeds of a sample before it\n";
    for (other, ending, out, error) in [
        (SECOND_SAMPLE, Ending::Done, BOTH_SAMPLES, ""),
        (FIRST_SAMPLE, Ending::Refused, "", said),
    ] {
        let mut files = Vec::new(rt.alloc());
        files.push(Vec::from_slice(rt.alloc(), FIRST_SAMPLE.as_bytes())?)?;
        files.push(Vec::from_slice(rt.alloc(), other.as_bytes())?)?;
        let answer = outcomes_merged(rt.alloc(), files.as_slice(), true)?;
        assert!(rt; answer.ending == ending);
        assert_eq!(rt; answer.out.as_str(), out);
        assert_eq!(rt; answer.error.as_str(), error);
    }
    Ok(())
}
