//! A report with one byte of the journal changed.

use crate::endings::ended;
use sem_cli::Status;
use sem_node::OpenGate;
use std::test::Fail;

const THREE_KERNELS: &[u8] = b"semper trace 1
kernels 3
pe 0 0
pe 1 1
pe 2 2
vpe 0 0
vpe 1 1
vpe 2 2
root 0 0 mem 0 4096 7
call 0 delegate 0 1 3
call 0 revoke 0
call 2 obtain 4 1 3
end
";

#[test]
fn a_journal_with_a_changed_byte_is_refused(rt: HostRuntime) -> Result<(), Fail> {
    let report = ended(&rt, rt.alloc(), "run 3897", THREE_KERNELS, &OpenGate)?.written;
    // The journal begins at byte 170 and ends after byte 1259.
    for place in (170..1270usize).step_by(11) {
        let mut changed = report.to_vec(rt.alloc())?;
        if let Some(byte) = changed.get_mut(place) {
            *byte = b'1';
        }
        let wanted = if changed.as_slice() == report.as_slice() {
            Status::Done
        } else {
            Status::ReportRefused
        };
        let checked = ended(&rt, rt.alloc(), "check", changed.as_slice(), &OpenGate)?;
        assert_eq!(rt; checked.status, wanted, "at {place}");
    }
    Ok(())
}
