ghost use Rattle.std.specs.Prelude.{◌+◌, ◌<◌, length, take, IfOk, IsErrOf, OnOk};
ghost use Rattle.sem_histories.specs.Closed.{CountsAs, ByParts};
ghost use Rattle.sem_histories.specs.Search.{HasMoreThan};
ghost use Rattle.sem_histories.specs.Listing.{ListsAllOutcomes};
ghost use Rattle.sem_outcomes.specs.Met.{IsUnderWay, journals};
ghost use Rattle.sem_outcomes.specs.Endings.{witnesses_of, ListsEndings, AreTold};

use crate::faults::SearchError;
use crate::histories::Histories;
use crate::listings::list_ending;
use crate::meetings::meet_all;
use crate::progress::{Progress, Quiet};
use crate::replays::play;
use sem_histories::{AllOutcomes, Listed};
use sem_kernel::enabled_events;
use sem_msg::Setup;
use std::alloc::Global;

/// All outcomes of the setup, each once, with a run that shows it and the number of complete
/// histories that end with it. Runs in which each kernel does the same are one history. If there
/// are more histories than the limit, complete ones and others, there is no list.
pub fn all_outcomes(alloc: Global, setup: &Setup, limit: usize) -> Result<AllOutcomes, SearchError>
    ensures all { IfOk result (λ all. ListsAllOutcomes setup.now (witnesses_of all.found.items)) }
    ensures counts { IfOk result (AreTold setup.now) }
    ensures few { OnOk result (HasMoreThan (CountsAs ByParts setup.now) setup.now limit → ⊥) }
    ensures many { IsErrOf result SearchError.TooMany
        → HasMoreThan (CountsAs ByParts setup.now) setup.now limit }
{
    all_outcomes_told(alloc, setup, limit, &mut Quiet)
}

/// As `all_outcomes`, and tells `progress` how far it is.
pub fn all_outcomes_told<P: Progress>(
    alloc: Global,
    setup: &Setup,
    limit: usize,
    progress: &mut P,
) -> Result<AllOutcomes, SearchError>
    ensures all { IfOk result (λ all. ListsAllOutcomes setup.now (witnesses_of all.found.items)) }
    ensures counts { IfOk result (AreTold setup.now) }
    ensures few { OnOk result (HasMoreThan (CountsAs ByParts setup.now) setup.now limit → ⊥) }
    ensures many { IsErrOf result SearchError.TooMany
        → HasMoreThan (CountsAs ByParts setup.now) setup.now limit }
{
    setup.keeps_its_rules();
    if limit == 0 {
        return Err(SearchError::TooMany);
    }
    let mut histories = Histories::new(alloc, setup)?;
    let mut found = Vec::new(alloc);
    let mut at = 0;
    while at < histories.len() {
        go_on(alloc, setup, &mut histories, &mut found, at, limit)?;
        at += 1;
        progress.met(histories.len(), at);
    }
    Ok(AllOutcomes {
        found,
        histories: histories.len() as u64,
    })
}

// Goes on from the history: lists its outcome, if it is complete, and otherwise meets what its
// enabled events lead to.
fn go_on(
    alloc: Global,
    setup: &Setup,
    histories: &mut Histories,
    found: &mut Vec<Listed>,
    at: usize,
    limit: usize,
) -> Result<(), SearchError>
    requires search { IsUnderWay setup.now limit at histories.old }
    requires at { at < length histories.old.numbers }
    requires listed { ListsEndings setup.now (take at (journals setup.now histories.old.steps))
        found.old.items }
    ensures search { OnOk result (IsUnderWay setup.now limit (at + 1) histories.new) }
    ensures listed { OnOk result (ListsEndings setup.now
        (take (at + 1) (journals setup.now histories.new.steps)) found.new.items) }
    ensures many { IsErrOf result SearchError.TooMany
        → HasMoreThan (CountsAs ByParts setup.now) setup.now limit }
{
    setup.keeps_its_rules();
    let (kernels, fabric) = play(alloc, setup, histories.steps.as_slice(), at)?;
    let mut events = Vec::new(alloc);
    enabled_events(alloc, setup, kernels.as_slice(), &fabric, &mut events)?;
    if events.is_empty() {
        list_ending(alloc, setup, kernels.as_slice(), fabric, found)?;
        return Ok(());
    }
    meet_all(
        alloc,
        setup,
        histories,
        &fabric,
        at,
        events.as_slice(),
        limit,
    )
}
