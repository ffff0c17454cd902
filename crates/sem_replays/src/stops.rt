//! Plays that stop before their end.

use crate::answers::stops_at;
use sem_msg::{Act, Event};

const OBTAIN_ACROSS_KERNELS: &[u8] = b"semper trace 1
kernels 2
pe 0 0
pe 1 1
vpe 0 0
vpe 1 1
root 0 0 mem 0 4096 7
call 1 obtain 5 0 0
end
";

#[test]
fn a_play_stops_at_an_event_that_is_not_enabled(rt: HostRuntime) {
    let makes_its_call = Event {
        kernel: 1,
        act: Act::Call { vpe: 1 },
    };
    let has_no_call = Event {
        kernel: 0,
        act: Act::Call { vpe: 0 },
    };
    let first = stops_at(rt.alloc(), OBTAIN_ACROSS_KERNELS, &[has_no_call]);
    assert_eq!(rt; first, Some((0, 0)));
    let events = [makes_its_call, has_no_call];
    let second = stops_at(rt.alloc(), OBTAIN_ACROSS_KERNELS, &events);
    assert_eq!(rt; second, Some((1, 1)));
}
