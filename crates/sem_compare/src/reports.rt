// The report of a run that shows an outcome.
use crate::found::Found;
use sem_audit::audit_of;
use sem_check::replay;
use sem_draw::{Answer, Ending};
use sem_key::OutOfMemory;
use sem_msg::{Journal, Setup};
use sem_report::print_report;
use std::alloc::Global;

/// The report of the run that shows the outcome of that number.
pub fn report_of(
    alloc: Global,
    setup: &Setup,
    found: &Found,
    number: u64,
) -> Result<Answer, OutOfMemory> {
    let Some(witness) = found.witness(number) else {
        let text = format!(in alloc; "there is no outcome {number}\n")?;
        return Ok(Answer::failed(alloc, Ending::WrongWords, text));
    };
    let text = report_text(alloc, setup, &witness.journal)?;
    Ok(Answer::done(alloc, text))
}

// The report of a run with that journal.
fn report_text(alloc: Global, setup: &Setup, journal: &Journal) -> Result<String, OutOfMemory> {
    let (kernels, _) = replay(alloc, setup, journal)?;
    let audit = audit_of(alloc, setup, journal, kernels.as_slice())?;
    let mut bytes = Vec::new(alloc);
    print_report(alloc, setup, journal, &audit, &mut bytes)?;
    as_text(alloc, bytes.as_slice())
}

/// The bytes of a printed text, which are all ASCII.
pub fn as_text(alloc: Global, bytes: &[u8]) -> Result<String, OutOfMemory> {
    let mut text = String::new(alloc);
    for byte in bytes {
        text.push(char::from(*byte))?;
    }
    Ok(text)
}
