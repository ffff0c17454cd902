use sem_assemble::assemble;
use sem_draw::Ending;
use sem_samples::OBTAIN_REPORT;
use std::test::Fail;

// The trace of `OBTAIN_REPORT` and the logs of its two kernels, in any spelling.
const LOGS: &[u8] = b"semper trace 1
kernels 2
pe 0 0
pe 1 1
vpe 0 0
vpe 1 1
root 0 0 mem 0 4096 7
call 1 obtain 5 0 0
end
# kernel 0
0 fetch 1 obtain-req 1.1.0 sel 0 0
0  handle 1 obtain-req 1.1.0 sel 0 0
0 upcall 0 1 yes grant 0.0.1.0 1.1.1.0
0 flush 1 obtain-ok 0.0.1.0 1.1.1.0 mem 0 4096 7

# kernel 1
1 call 1 0 obtain 5 0 0
1 flush 0 obtain-req 1.1.0 sel 0 0
1 fetch 0 obtain-ok 0.0.1.0 1.1.1.0 mem 0 4096 7
1 handle 0 obtain-ok 0.0.1.0 1.1.1.0 mem 0 4096 7
1 resume 1 reply 1 0
";

// Kernel 2 does not log the flush of the message that kernel 0 fetches from it. It also logs one
// reply fewer than its kill waits for. Kernel 0 does not log every fetch from kernel 1.
const STUCK: &[u8] = b"semper trace 2
kernels 3
window 1
pe 0 0
pe 1 1
pe 2 2
vpe 0 0
vpe 1 1
vpe 2 2
kill 2 2
end
0 fetch 1 revoke-done 0
0 fetch 2 revoke-done 0
1 flush 0 revoke-done 0
1 flush 0 revoke-done 1
1 flush 0 revoke-done 2
2 resume 2 reply 2 0
2 kill 2
";

const STUCK_TEXT: &str = "\
the logs fit in no order: 3 of 7 entries are left
line 13: \"0 fetch 2 revoke-done 0\" waits for a message of kernel 2 that no log sends
line 16: \"1 flush 0 revoke-done 2\" waits for room on the link to kernel 0, which no log makes
line 18: \"2 kill 2\" waits for more replies: the trace kills VPE 2 after 2, and so far it had 1
";

// No kernel has this number.
const WRONG: &[u8] = b"semper trace 1
kernels 1
end
# a comment
1 call 0 0 exit reply 0 0
";

const WRONG_TEXT: &str = "\
the logs are refused: line 5, word 1: \"1\" is out of range; wanted here: the kernel, from 0 to 0
    1 call 0 0 exit reply 0 0
    ^
";

#[test]
fn logs_are_put_together_or_what_is_wrong_is_told(rt: HostRuntime) -> Result<(), Fail> {
    for (text, ending, out, error) in [
        (LOGS, Ending::Done, OBTAIN_REPORT, ""),
        (STUCK, Ending::Refused, "", STUCK_TEXT),
        (WRONG, Ending::Refused, "", WRONG_TEXT),
    ] {
        let answer = assemble(rt.alloc(), text)?;
        assert_eq!(rt; answer.ending, ending);
        assert_eq!(rt; answer.out.as_str(), out);
        assert_eq!(rt; answer.error.as_str(), error);
    }
    Ok(())
}
