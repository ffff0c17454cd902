// Requests for outcomes, and their answers.
use crate::data::Outcomes;
use crate::found::Found;
use crate::merging::merged;
use crate::reports::report_of;
use crate::sums::told_outcomes;
use crate::texts::outcomes_as_text;
use sem_draw::{Answer, Ending};
use sem_hint::{TextKind, refusal_text};
use sem_key::OutOfMemory;
use sem_msg::Setup;
use sem_trace::TraceFault;
use std::alloc::Global;

/// What to tell of outcomes: the report of one, by its number, or all of them, as text or as JSON.
#[derive(Clone, Copy, Debug)]
pub struct Telling {
    pub report: Option<u64>,
    pub is_json: bool,
}

/// The answer, given what was found for the setup.
pub fn outcomes_of(
    alloc: Global,
    telling: Telling,
    setup: &Setup,
    found: &Found,
) -> Result<Answer, OutOfMemory> {
    if let Some(number) = telling.report {
        return report_of(alloc, setup, found, number);
    }
    let told = told_outcomes(alloc, setup, found)?;
    written(alloc, &told, telling.is_json)
}

/// The answer to a request to put samples together; the texts are the samples, a line of JSON each.
pub fn outcomes_merged(
    alloc: Global,
    texts: &[Vec<u8>],
    is_json: bool,
) -> Result<Answer, OutOfMemory> {
    match merged(alloc, texts)? {
        Ok(told) => written(alloc, &told, is_json),
        Err(text) => Ok(Answer::failed(alloc, Ending::Refused, text)),
    }
}

/// The answer if the input is no trace.
pub fn no_trace(alloc: Global, bytes: &[u8], fault: &TraceFault) -> Result<Answer, OutOfMemory> {
    let mut text = String::from_str(alloc, "the input is no trace: ")?;
    let why = refusal_text(alloc, bytes, fault, TextKind::Trace)?;
    text.push_str(why.as_str())?;
    Ok(Answer::failed(alloc, Ending::Refused, text))
}

/// The answer if there are more histories than the limit.
pub fn too_many(alloc: Global, limit: usize) -> Result<Answer, OutOfMemory> {
    let text = format!(in alloc;
        "there are more than {limit} histories: what was met by then is no answer; set --limit\n"
    )?;
    Ok(Answer::failed(alloc, Ending::WrongWords, text))
}

// Writes the outcomes.
fn written(alloc: Global, told: &Outcomes, is_json: bool) -> Result<Answer, OutOfMemory> {
    let text = if is_json {
        as_json(alloc, told)?
    } else {
        outcomes_as_text(alloc, told)?
    };
    Ok(Answer::done(alloc, text))
}

// The outcomes as one line of JSON.
fn as_json(alloc: Global, told: &Outcomes) -> Result<String, OutOfMemory> {
    match serde_json::to_string(alloc, told) {
        Ok(mut text) => {
            text.push('\n')?;
            Ok(text)
        }
        Err(_) => Err(OutOfMemory),
    }
}
