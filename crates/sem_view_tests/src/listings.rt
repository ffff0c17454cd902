use sem_draw::Ending;
use sem_listing::listing;
use std::test::Fail;

// Two clients of a file of two extents.
const COMMANDS: &[u8] = b"semper files 1
kernels 2
file 3 2
client 2
client 1
client 9
do 1 open 4 3
do 1 write 4 4090 10
do 2 open 0 3
do 1 share 4 2 5
do 1 close 4
end
";

// The listing of these commands.
const LISTED: &str = "semper trace 1
kernels 2
pe 0 0
pe 1 1
pe 2 0
pe 9 1
vpe 0 0
vpe 1 1
vpe 2 2
vpe 9 9
# the service
service 0 0 0
# extent 0 of file 3
root 0 13 mem 49152 4096 7
# extent 1 of file 3
root 0 14 mem 53248 4096 7
offer 0 12 13
offer 0 13 14
# client 1 opens a session
call 1 open 0 0
# do 1 open 4 3
call 1 ask 17 0 12
call 1 ask 18 0 13
# do 1 write 4 4090 10
call 1 bind 0 17
call 1 write 0 4090 6
call 1 bind 0 18
call 1 write 0 0 4
# do 1 share 4 2 5
call 1 delegate 17 2 148
call 1 delegate 18 2 149
# do 1 close 4
call 1 revoke 17
call 1 revoke 18
# client 2 opens a session
call 2 open 0 0
# do 2 open 0 3
call 2 ask 1 0 12
call 2 ask 2 0 13
end
";

// Commands that name a missing file.
const WRONG: &[u8] = b"semper files 1
kernels 1
file 16 1
end
";

const EXPLAINED: &str = "\
the file commands are refused: line 3, word 2: \"16\" is out of range; wanted here: the file, from 0 to 15
    file 16 1
         ^^
";

#[test]
fn each_command_stands_above_its_calls_or_is_explained(rt: HostRuntime) -> Result<(), Fail> {
    for (text, ending, out, error) in [
        (COMMANDS, Ending::Done, LISTED, ""),
        (WRONG, Ending::Refused, "", EXPLAINED),
    ] {
        let answer = listing(rt.alloc(), text)?;
        assert_eq!(rt; answer.ending, ending);
        assert_eq!(rt; answer.out.as_str(), out);
        assert_eq!(rt; answer.error.as_str(), error);
    }
    Ok(())
}
