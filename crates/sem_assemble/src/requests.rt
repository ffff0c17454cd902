// The request for a report of logs, and its answer.
use crate::logs::{Logs, read_logs};
use crate::orders::{Order, put_in_order};
use crate::stuck::stuck_text;
use sem_audit::audit_of;
use sem_check::replay;
use sem_draw::{Answer, Ending};
use sem_key::OutOfMemory;
use sem_report::print_report;
use std::alloc::Global;

/// The report of the logs in these bytes: a trace, and then the entries of all kernels, a line
/// each. If there is none, standard error tells why: which line is refused, or which entries fit in
/// no order.
pub fn assemble(alloc: Global, bytes: &[u8]) -> Result<Answer, OutOfMemory> {
    let logs = match read_logs(alloc, bytes)? {
        Ok(logs) => logs,
        Err(why) => return Ok(Answer::failed(alloc, Ending::Refused, why)),
    };
    let order = put_in_order(alloc, &logs)?;
    if order.journal.len() < logs.journal.len() {
        let why = stuck_text(alloc, &logs, &order)?;
        return Ok(Answer::failed(alloc, Ending::Refused, why));
    }
    let text = report_text(alloc, &logs, &order)?;
    Ok(Answer::done(alloc, text))
}

// The report. Its audit is that of the longest prefix of the journal that is a schedule. For a
// schedule it is the due audit; any other journal is refused before its audit is tested.
fn report_text(alloc: Global, logs: &Logs, order: &Order) -> Result<String, OutOfMemory> {
    let (kernels, fabric) = replay(alloc, &logs.setup, &order.journal)?;
    let audit = audit_of(alloc, &logs.setup, fabric.journal(), kernels.as_slice())?;
    let mut bytes = Vec::new(alloc);
    print_report(alloc, &logs.setup, &order.journal, &audit, &mut bytes)?;
    let mut text = String::new(alloc);
    for byte in bytes.as_slice() {
        text.push(char::from(*byte))?;
    }
    Ok(text)
}
