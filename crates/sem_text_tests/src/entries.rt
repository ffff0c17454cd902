//! The lines of entries, read and printed, and lines that tell no entry.

use sem_journal::{print_entry, read_entry};
use std::test::Fail;

// Lines of version 1 that tell entries of 16 kernels.
const OF_ONE: [&str; 36] = [
    "0 call 0 0 derive 0 1 0 1024 1 grant 0.0.1.0 0.0.1.1 reply 0 0",
    "0 call 0 1 revoke 0 cut 0.0.1.0",
    "0 resume 0 reply 0 0",
    "1 call 1 0 obtain 5 0 0",
    "1 flush 0 obtain-req 1.1.0 sel 0 0",
    "0 fetch 1 obtain-req 1.1.0 sel 0 0",
    "0 handle 1 obtain-req 1.1.0 sel 0 0",
    "0 upcall 0 1 yes grant 0.0.1.0 1.1.1.0",
    "0 flush 1 obtain-ok 0.0.1.0 1.1.1.0 mem 0 4096 7",
    "1 fetch 0 obtain-ok 0.0.1.0 1.1.1.0 mem 0 4096 7",
    "1 handle 0 obtain-ok 0.0.1.0 1.1.1.0 mem 0 4096 7",
    "1 resume 1 reply 1 0",
    "15 handle 15 obtain-req 63.63.4095 serv 63.63.4.4095",
    "0 handle 1 obtain-req 0.0.0 offer 1.1.4.0 255",
    "0 handle 1 obtain-ok 0.0.2.0 1.1.2.0 recv 64",
    "0 handle 1 obtain-ok 0.0.3.0 1.1.3.0 send 0.0.2.0 4294967295 64",
    "0 handle 1 obtain-ok 0.0.4.0 1.1.4.0 serv 255",
    "0 handle 1 obtain-ok 0.0.5.0 1.1.5.0 sess 0.0.4.0 63",
    "0 handle 1 obtain-ok 0.0.1.0 1.1.1.0 mem 4294967295 1 0",
    "0 handle 1 obtain-no 1.1.0 15",
    "0 handle 1 delegate-req 1.1.1.0 mem 0 4096 7 0 4",
    "0 handle 1 delegate-prepared 0.0.1.0 1.1.1.1",
    "0 handle 1 delegate-no 0.0.1.0 2",
    "0 handle 1 ack 1.1.1.0 yes",
    "0 handle 1 ack 1.1.1.0 no",
    "0 handle 1 orphan 0.0.1.0 1.1.1.0",
    "0 handle 1 revoke-req 1.1.1.0 4294967295",
    "0 handle 1 revoke-done 0",
    "0 handle 1 unlink 1.1.1.0 0.0.1.1",
    "0 upcall 63 0 no",
    "0 upcall 0 63 drop",
    "0 kill 63",
    "0 call 63 4294967295 exit reply 63 15",
    "0 resume 0 grant 0.0.1.0 1.1.1.0 cut 0.0.1.0 reply 0 0",
    "0 call 0 1 clear 0 cut 0.0.1.0",
    "1 call 1 0 clear 255 reply 1 3",
];

// Lines of version 2 that tell entries of 32 kernels.
const OF_TWO: [&str; 4] = [
    "31 call 127 0 obtain 5 64 0",
    "31 flush 0 obtain-req 127.127.4095 sel 127 255",
    "0 handle 31 obtain-ok 0.0.5.0 127.127.5.4095 sess 127.127.4.4095 127",
    "0 upcall 127 64 yes grant 127.127.1.4095 64.64.1.0 cut 127.64.1.0 reply 127 15",
];

#[test]
fn each_event_message_object_and_target_is_read_as_it_is_printed(
    rt: HostRuntime,
) -> Result<(), Fail> {
    for (lines, version) in [(OF_ONE.as_slice(), 1), (OF_TWO.as_slice(), 2)] {
        for line in lines {
            let found = if version == 1 {
                read_entry(line.as_bytes(), 1, 16)
            } else {
                read_entry(line.as_bytes(), 2, 32)
            };
            let Ok(entry) = found else {
                return Err(Fail::from(*line));
            };
            let mut printed = Vec::new(rt.alloc());
            print_entry(rt.alloc(), &entry, &mut printed)?;
            assert_eq!(rt;
                printed.as_slice(),
                format!(in rt.alloc(); "{line}\n")?.as_bytes()
            );
        }
    }
    Ok(())
}
