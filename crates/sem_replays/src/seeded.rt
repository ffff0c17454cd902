//! Runs that go on from a replay. The expected journals come from two independent reference
//! programs.

use crate::answers::draws_on;
use std::test::Fail;

const VERSION_TWO_RUNS_01: &[u8] = b"semper report 2
semper trace 2
kernels 4
window 1
pe 34 1
pe 48 1
pe 88 0
pe 127 0
vpe 34 34
vpe 48 48
vpe 88 88
vpe 127 127
root 34 0 mem 139264 4096 7
root 48 0 mem 196608 4096 7
root 88 0 mem 360448 4096 7
root 88 1 recv 4
root 127 0 mem 520192 4096 7
kill 48 4
kill 88 3
call 34 clear 0
call 34 obtain 4 88 0
call 34 obtain 5 88 0
call 48 derive 0 2 0 16 3
call 48 clear 2
call 48 write 0 0 16
call 88 revoke 0
call 88 bind 0 1
call 88 read 0 0 4
call 88 delegate 0 34 2
call 88 delegate 0 34 3
call 88 revoke 0
call 127 obtain 2 34 2
end
journal 33
0 call 127 0 obtain 2 34 2
1 call 34 0 clear 0 cut 34.34.1.0
0 flush 1 obtain-req 127.127.1 sel 34 2
1 fetch 0 obtain-req 127.127.1 sel 34 2
1 call 48 0 derive 0 2 0 16 3 grant 48.48.1.0 48.48.1.1 reply 48 0
1 call 48 1 clear 2 cut 48.48.1.1
1 resume 34 reply 34 0
1 handle 0 obtain-req 127.127.1 sel 34 2
1 upcall 34 127 yes
1 resume 48 reply 48 0
1 call 48 2 write 0 0 16 reply 48 12
1 call 34 1 obtain 4 88 0
0 kill 88
1 kill 48
1 flush 0 obtain-no 127.127.1 3
0 fetch 1 obtain-no 127.127.1 3
1 flush 0 obtain-req 34.34.1 sel 88 0
0 handle 1 obtain-no 127.127.1 3
0 resume 127 reply 127 3
0 fetch 1 obtain-req 34.34.1 sel 88 0
0 handle 1 obtain-req 34.34.1 sel 88 0
0 flush 1 obtain-no 34.34.1 2
1 fetch 0 obtain-no 34.34.1 2
1 handle 0 obtain-no 34.34.1 2
1 resume 34 reply 34 2
1 call 34 2 obtain 5 88 0
1 flush 0 obtain-req 34.34.2 sel 88 0
0 fetch 1 obtain-req 34.34.2 sel 88 0
0 handle 1 obtain-req 34.34.2 sel 88 0
0 flush 1 obtain-no 34.34.2 2
1 fetch 0 obtain-no 34.34.2 2
1 handle 0 obtain-no 34.34.2 2
1 resume 34 reply 34 2
audit
made 6
cut 4
held 2
key 34.34.1.0 0
key 127.127.1.0 0
end
";

#[test]
fn a_run_goes_on_from_a_replay(rt: HostRuntime) -> Result<(), Fail> {
    let is_right = draws_on(rt.alloc(), 18446744073709551615, VERSION_TWO_RUNS_01)?;
    assert!(rt; is_right);
    Ok(())
}
