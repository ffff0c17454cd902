// What was found, as it is told.
use crate::data::{Outcome, Outcomes, SeedRange};
use crate::endings::told_outcome;
use crate::found::Found;
use crate::reports::as_text;
use sem_histories::{Listed, Sampled};
use sem_key::OutOfMemory;
use sem_msg::Setup;
use sem_trace::push_trace;
use std::alloc::Global;

/// What was found of a setup.
pub fn told_outcomes(alloc: Global, setup: &Setup, found: &Found) -> Result<Outcomes, OutOfMemory> {
    let trace = trace_text(alloc, setup)?;
    match found {
        Found::Sampled { from, seeds, found } => Ok(Outcomes {
            trace,
            seeds: one_range(alloc, *from, *seeds)?,
            histories: None,
            outcomes: told_samples(alloc, setup, found.as_slice())?,
        }),
        Found::All { all } => Ok(Outcomes {
            trace,
            seeds: Vec::new(alloc),
            histories: Some(all.histories),
            outcomes: told_endings(alloc, setup, all.found.as_slice())?,
        }),
    }
}

// The canonical text of the trace.
fn trace_text(alloc: Global, setup: &Setup) -> Result<String, OutOfMemory> {
    let mut bytes = Vec::new(alloc);
    push_trace(&mut bytes, setup)?;
    as_text(alloc, bytes.as_slice())
}

// That many seeds from the first on.
fn one_range(alloc: Global, from: u64, count: u64) -> Result<Vec<SeedRange>, OutOfMemory> {
    let mut ranges = Vec::new(alloc);
    ranges.push(SeedRange { from, count })?;
    Ok(ranges)
}

// The outcomes of a sample.
fn told_samples(
    alloc: Global,
    setup: &Setup,
    found: &[Sampled],
) -> Result<Vec<Outcome>, OutOfMemory> {
    let mut outcomes = Vec::new(alloc);
    for it in found {
        let ending = &it.witness.outcome;
        let parts = (ending.codes.as_slice(), ending.held.as_slice());
        outcomes.push(told_outcome(alloc, setup, parts, it.count, Some(it.seed))?)?;
    }
    Ok(outcomes)
}

// All outcomes.
fn told_endings(
    alloc: Global,
    setup: &Setup,
    found: &[Listed],
) -> Result<Vec<Outcome>, OutOfMemory> {
    let mut outcomes = Vec::new(alloc);
    for it in found {
        let ending = &it.witness.outcome;
        let parts = (ending.codes.as_slice(), ending.held.as_slice());
        outcomes.push(told_outcome(alloc, setup, parts, it.histories, None)?)?;
    }
    Ok(outcomes)
}
