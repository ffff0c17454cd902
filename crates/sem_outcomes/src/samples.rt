ghost use Rattle.std.specs.Prelude.{◌≡◌, ◌≢◌, ◌+◌, ◌^◌, ◌<◌, ◌≤◌, [], map, slice_get, Some, All};
ghost use Rattle.std.specs.Prelude.{IfOk, IfSome, IfNone, OnOk, OnErr};
ghost use Rattle.sem_machine.specs.Seeded.{seeded};
ghost use Rattle.sem_histories.specs.Outcomes.{outcome};
ghost use Rattle.sem_histories.specs.Listing.{witness_of};
ghost use Rattle.sem_outcomes.specs.Samples.{IsSample, NextSampled};

use crate::endings::{outcome_of, same_outcome};
use crate::progress::{Progress, Quiet};
use sem_histories::{RunOutcome, Sampled, Witness};
use sem_key::OutOfMemory;
use sem_msg::{Journal, Setup};
use sem_serial::{boot, drain};
use std::alloc::Global;
use std::marker::Model;

/// The outcomes of the runs of a setup by seeds, one seed after another. Only `next` takes memory.
#[derive(Debug, Drop)]
pub struct Sample {
    from: u64,
    seeds: u64,
    found: Vec<Sampled>,
}

impl Model for Sample {
    ghost use Rattle.sem_outcomes.specs.Samples.{SampleValue};

    ghost Value = { SampleValue };

    ghost view = { λ s. record { from = s.from; seeds = s.seeds; found = s.found.items } };
}

impl Sample {
    /// No seed yet; the first will be `from`.
    pub fn new(alloc: Global, from: u64) -> Self
        ensures { result ≡ record { from = from; seeds = 0; found = [] } }
    {
        Sample {
            from,
            seeds: 0,
            found: Vec::new(alloc),
        }
    }

    /// Runs the setup by the next seed, and counts its outcome. That seed must be at most 2^64 - 1,
    /// and so must the number of seeds with it. If memory is refused, the sample is as before.
    pub fn next(&mut self, alloc: Global, setup: &Setup) -> Result<(), OutOfMemory>
        requires range { self.old.from + self.old.seeds < 2 ^ 64 }
        requires seeds { self.old.seeds + 1 < 2 ^ 64 }
        requires sample { IsSample setup.now self.old.from self.old.seeds self.old.found }
        ensures from { self.new.from ≡ self.old.from }
        ensures seeds { OnOk result (self.new.seeds ≡ self.old.seeds + 1) }
        ensures sample { OnOk result
            (IsSample setup.now self.new.from self.new.seeds self.new.found) }
        ensures err { OnErr result (self.new ≡ self.old) }
    {
        let seed = self.from + self.seeds;
        let witness = seeded_witness(alloc, setup, seed)?;
        count_witness(&mut self.found, witness, seed)?;
        self.seeds += 1;
        Ok(())
    }

    /// The outcomes so far, each once, by their least seeds.
    pub fn found(&self) -> &[Sampled]
        ensures { result.now ≡ self.now.found }
    {
        &self.found
    }

    /// The outcomes, without the rest of the sample.
    pub fn into_found(self) -> Vec<Sampled>
        ensures { result.items ≡ self.found }
    {
        self.found
    }
}

/// The outcomes of the runs of the setup by that many seeds, from the seed `from` on.
pub fn sample_outcomes(
    alloc: Global,
    setup: &Setup,
    from: u64,
    seeds: u64,
) -> Result<Vec<Sampled>, OutOfMemory>
    requires { from + seeds ≤ 2 ^ 64 }
    ensures { IfOk result (λ found. IsSample setup.now from seeds found.items) }
{
    sample_outcomes_told(alloc, setup, from, seeds, &mut Quiet)
}

/// As `sample_outcomes`, and tells `progress` how far it is.
pub fn sample_outcomes_told<P: Progress>(
    alloc: Global,
    setup: &Setup,
    from: u64,
    seeds: u64,
    progress: &mut P,
) -> Result<Vec<Sampled>, OutOfMemory>
    requires { from + seeds ≤ 2 ^ 64 }
    ensures { IfOk result (λ found. IsSample setup.now from seeds found.items) }
{
    let mut sample = Sample::new(alloc, from);
    for count in 0..seeds {
        sample.next(alloc, setup)?;
        progress.met(seeds as usize, count as usize);
    }
    Ok(sample.into_found())
}

// The outcome of the run by the seed, and its journal.
fn seeded_witness(alloc: Global, setup: &Setup, seed: u64) -> Result<Witness, OutOfMemory>
    ensures { IfOk result (λ w. w ≡ witness_of setup.now (seeded setup.now seed)) }
{
    let (mut kernels, mut fabric) = boot(alloc, setup, Journal::new(alloc))?;
    drain(alloc, setup, &mut kernels, &mut fabric, seed)?;
    let journal = fabric.into_journal();
    let outcome = outcome_of(alloc, setup, kernels.as_slice(), journal.as_slice())?;
    Ok(Witness { journal, outcome })
}

// Counts the outcome of the run by the seed. No count may be at its end.
fn count_witness(found: &mut Vec<Sampled>, witness: Witness, seed: u64) -> Result<(), OutOfMemory>
    requires { All (λ s. s.count + 1 < 2 ^ 64) found.old.items }
    ensures ok { OnOk result (NextSampled found.old.items witness seed found.new.items) }
    ensures err { OnErr result (found.new.items ≡ found.old.items) }
{
    match place_of(found.as_slice(), &witness.outcome) {
        Some(place) => {
            found[place].count += 1;
        }
        None => found.push(Sampled {
            witness,
            count: 1,
            seed,
        })?,
    }
    Ok(())
}

// The place of the outcome in the list.
fn place_of(found: &[Sampled], outcome: &RunOutcome) -> Option<usize>
    ensures there { IfSome result (λ place. slice_get (map (λ l. l.witness.outcome) found.now) place
        ≡ Some outcome.now) }
    ensures none { IfNone result (All (λ l. l.witness.outcome ≢ outcome.now) found.now) }
{
    for (place, sampled) in found.iter().enumerate() {
        if same_outcome(&sampled.witness.outcome, outcome) {
            return Some(place);
        }
    }
    None
}
