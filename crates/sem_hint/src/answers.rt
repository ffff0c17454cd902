// Answers to requests that fail.
use crate::OutOfMemory;
use crate::hints::no_report_text;
use sem_draw::{Answer, Ending};
use sem_trace::TraceError;
use std::alloc::Global;

/// The answer to a request whose input is no report, by why it is refused.
pub fn no_report(alloc: Global, bytes: &[u8], error: TraceError) -> Result<Answer, OutOfMemory> {
    match error {
        TraceError::Refused(fault) => {
            let text = no_report_text(alloc, bytes, &fault)?;
            Ok(Answer::failed(alloc, Ending::Refused, text))
        }
        TraceError::Memory => Err(OutOfMemory),
    }
}

/// The answer to a request for the first `at` entries of a report that has only `all`.
pub fn too_few_entries(alloc: Global, at: u64, all: u64) -> Result<Answer, OutOfMemory> {
    let text = format!(in alloc; "there are no {at} entries: the report has {all}\n")?;
    Ok(Answer::failed(alloc, Ending::WrongWords, text))
}

/// The answer to a request on a report if the machine makes another entry than the one of that
/// number.
pub fn wrong_entry(alloc: Global, number: usize) -> Result<Answer, OutOfMemory> {
    let text = format!(in alloc;
        "entry {number} is not the one that the machine makes: semper-view explain tells more\n"
    )?;
    Ok(Answer::failed(alloc, Ending::Refused, text))
}
