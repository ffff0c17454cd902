// Samples of one trace, put together.
use crate::data::{Outcome, Outcomes, SeedRange};
use sem_key::OutOfMemory;
use std::alloc::Global;

/// The sample of all seeds of these samples, a line of JSON each; or why they cannot be put
/// together.
pub fn merged(alloc: Global, texts: &[Vec<u8>]) -> Result<Result<Outcomes, String>, OutOfMemory> {
    let mut sum: Option<Outcomes> = None;
    for (number, text) in texts.iter().enumerate() {
        let sample = match read_sample(alloc, text.as_slice(), number)? {
            Ok(sample) => sample,
            Err(why) => return Ok(Err(why)),
        };
        match &mut sum {
            None => sum = Some(sample),
            Some(all) => {
                if let Some(why) = fault(alloc, all, &sample, number)? {
                    return Ok(Err(why));
                }
                add(all, sample)?;
            }
        }
    }
    match sum {
        Some(all) => Ok(Ok(all)),
        None => Ok(Err(String::from_str(alloc, "there is no sample to put together\n")?)),
    }
}

// The sample in the text of that number, or why there is none.
fn read_sample(
    alloc: Global,
    text: &[u8],
    number: usize,
) -> Result<Result<Outcomes, String>, OutOfMemory> {
    match serde_json::from_slice::<Outcomes>(alloc, text) {
        Ok(sample) if sample.histories.is_none() => Ok(Ok(sample)),
        Ok(_) => {
            let why = format!(in alloc;
                "sample {number} is no sample: all schedules were searched\n"
            )?;
            Ok(Err(why))
        }
        Err(error) if error.is_memory() => Err(OutOfMemory),
        Err(_) => {
            let why = format!(in alloc; "sample {number} is not what outcomes --json writes\n")?;
            Ok(Err(why))
        }
    }
}

// Why the sample of that number cannot join the others, if it cannot.
fn fault(
    alloc: Global,
    all: &Outcomes,
    sample: &Outcomes,
    number: usize,
) -> Result<Option<String>, OutOfMemory> {
    if all.trace != sample.trace {
        let why = format!(in alloc; "sample {number} is of another trace than sample 0\n")?;
        return Ok(Some(why));
    }
    for range in sample.seeds.as_slice() {
        if all.seeds.iter().any(|it| meet(it, range)) {
            let why = format!(in alloc; "sample {number} has seeds of a sample before it\n")?;
            return Ok(Some(why));
        }
    }
    Ok(None)
}

// Whether the two share a seed.
fn meet(one: &SeedRange, other: &SeedRange) -> bool {
    one.from < other.from.saturating_add(other.count)
        && other.from < one.from.saturating_add(one.count)
}

// Lets the sample join the others.
fn add(all: &mut Outcomes, sample: Outcomes) -> Result<(), OutOfMemory> {
    for range in sample.seeds.as_slice() {
        all.seeds.push(*range)?;
    }
    for outcome in sample.outcomes {
        add_outcome(&mut all.outcomes, outcome)?;
    }
    Ok(())
}

// Counts the outcome with an equal one, or lets it join the others.
fn add_outcome(outcomes: &mut Vec<Outcome>, outcome: Outcome) -> Result<(), OutOfMemory> {
    for it in outcomes.iter_mut() {
        if it.calls == outcome.calls && it.held == outcome.held {
            it.count = it.count.saturating_add(outcome.count);
            it.seed = least(it.seed, outcome.seed);
            return Ok(());
        }
    }
    outcomes.push(outcome)?;
    Ok(())
}

// The lesser seed.
fn least(one: Option<u64>, other: Option<u64>) -> Option<u64> {
    match (one, other) {
        (Some(one), Some(other)) => Some(one.min(other)),
        (Some(seed), None) | (None, Some(seed)) => Some(seed),
        (None, None) => None,
    }
}
