use sem_draw::{Ending, Picture};
use sem_writers::{MemoryRequest, memory_picture};
use std::test::Fail;

// A VPE writes a part of its memory, and reads some of that part and more.
const WRITTEN: &[u8] = b"semper report 1
semper trace 1
kernels 1
pe 0 0
vpe 0 0
root 0 0 mem 64 128 7
call 0 bind 0 0
call 0 write 0 0 16
call 0 read 0 8 16
end
journal 3
0 call 0 0 bind 0 0 reply 0 0
0 call 0 1 write 0 0 16 reply 0 0
0 call 0 2 read 0 8 16 reply 0 0
audit
made 1
cut 0
held 1
key 0.0.1.0 0
end
";

// What the picture says.
const SAID: [&str; 5] = [
    "128 bytes from 64; root 0.0.1.0 of v0 of K0; 2 bytes a cell\n",
    "\n         ########...",
    "\n  #     64     16      1  v0 through 0.0.1.0\n",
    "\n  .     80    112         nobody\n",
    "     72     16      2  v0 through 0.0.1.0        8  1 by v0\n",
];

#[test]
fn bars_tell_who_wrote_and_who_read(rt: HostRuntime) -> Result<(), Fail> {
    let mut request = MemoryRequest {
        picture: Picture::Plain,
        at: None,
    };
    let answer = memory_picture(rt.alloc(), &request, WRITTEN)?;
    for said in SAID {
        assert!(rt; answer.out.as_str().contains(said), "{said}");
    }
    request.at = Some(1);
    let answer = memory_picture(rt.alloc(), &request, WRITTEN)?;
    assert!(rt; answer.out.as_str() == "no memory was written or read\n");
    request.at = Some(4);
    let answer = memory_picture(rt.alloc(), &request, WRITTEN)?;
    assert!(rt; answer.ending == Ending::WrongWords);
    assert!(rt; memory_picture(rt.alloc(), &request, b"semper")?.ending == Ending::Refused);
    Ok(())
}
