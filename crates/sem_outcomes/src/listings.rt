// The list of outcomes, as complete histories come in.
ghost use Rattle.std.specs.Prelude.{◌≡◌, ◌≢◌, ◌+◌, ◌^◌, ◌<◌, ◌∷◌, ◌++◌, [], List, map, length};
ghost use Rattle.std.specs.Prelude.{slice_get, All, IfSome, IfNone, OnOk};
ghost use Rattle.sem_msg.specs.declared.entry.Entry.{Entry as EntryData};
ghost use Rattle.sem_machine.specs.Living.{IsComplete};
ghost use Rattle.sem_kernel.specs.Standing.{StandsAt};
ghost use Rattle.sem_outcomes.specs.Endings.{ListsEndings};

use crate::endings::{outcome_of, same_outcome};
use sem_fabric::Fabric;
use sem_histories::{Listed, RunOutcome, Witness};
use sem_kernel::Kernel;
use sem_key::OutOfMemory;
use sem_msg::{Journal, Setup};
use std::alloc::Global;

// Counts the outcome of the complete history at which these kernels stand.
pub fn list_ending(
    alloc: Global,
    setup: &Setup,
    kernels: &[Kernel],
    fabric: Fabric,
    found: &mut Vec<Listed>,
) -> Result<(), OutOfMemory>
    requires stand { StandsAt setup.now kernels.now fabric }
    requires complete { IsComplete setup.now fabric.journal }
    requires few { (V : List (List EntryData)) × ListsEndings setup.now V found.old.items
        × (length V + 1 < 2 ^ 64) }
    ensures { OnOk result ((V : List (List EntryData)) → ListsEndings setup.now V found.old.items
        → ListsEndings setup.now (V ++ fabric.journal ∷ []) found.new.items) }
{
    let journal = fabric.into_journal();
    let outcome = outcome_of(alloc, setup, kernels, journal.as_slice())?;
    match place_of(found.as_slice(), &outcome) {
        Some(place) => {
            found[place].histories += 1;
        }
        None => found.push(Listed {
            witness: Witness { journal, outcome },
            histories: 1,
        })?,
    }
    Ok(())
}

// The first place of the outcome in the list.
fn place_of(found: &[Listed], outcome: &RunOutcome) -> Option<usize>
    ensures there { IfSome result (λ place. slice_get (map (λ l. l.witness.outcome) found.now) place
        ≡ Some outcome.now) }
    ensures none { IfNone result (All (λ l. l.witness.outcome ≢ outcome.now) found.now) }
{
    for (place, listed) in found.iter().enumerate() {
        if same_outcome(&listed.witness.outcome, outcome) {
            return Some(place);
        }
    }
    None
}
