// The histories that events lead to.
ghost use Rattle.std.specs.Prelude.{◌≡◌, ◌<◌, ◌∷◌, ◌++◌, [], true, length, All};
ghost use Rattle.std.specs.Prelude.{slice_index_or, slice_set, IfOk, IsErrOf, OnOk};
ghost use Rattle.sem_machine.specs.Machine.{is_enabled};
ghost use Rattle.sem_machine.specs.Schedules.{world_after};
ghost use Rattle.sem_kernel.specs.Worlds.{NamesPeer, taken};
ghost use Rattle.sem_histories.specs.Outcomes.{and_then};
ghost use Rattle.sem_histories.specs.Closed.{CountsAs, ByParts};
ghost use Rattle.sem_histories.specs.Search.{HasMoreThan};
ghost use Rattle.sem_outcomes.specs.Met.{AreMet, AreNumbersIn, HasLinks, IsUnderWay, HasMet};
ghost use Rattle.sem_outcomes.specs.Met.{journal_at};

use crate::faults::SearchError;
use crate::histories::Histories;
use crate::replays::entry_after;
use crate::steps::Step;
use sem_fabric::Fabric;
use sem_key::OutOfMemory;
use sem_msg::{Act, Event, Message, Setup};
use sem_numbering::NumberLists;
use std::alloc::Global;

// Meets what each of the events, all enabled, leads to from the history. The fabric has the
// history's links.
pub fn meet_all(
    alloc: Global,
    setup: &Setup,
    histories: &mut Histories,
    fabric: &Fabric,
    at: usize,
    events: &[Event],
    limit: usize,
) -> Result<(), SearchError>
    requires search { IsUnderWay setup.now limit at histories.old }
    requires at { at < length histories.old.numbers }
    requires links { HasLinks setup.now fabric.now (journal_at setup.now histories.old.steps at) }
    requires enabled { All (λ e. is_enabled setup.now
        (world_after setup.now (journal_at setup.now histories.old.steps at)) e ≡ true) events.now }
    ensures met { OnOk result (HasMet setup.now limit at events.now histories.old histories.new) }
    ensures many { IsErrOf result SearchError.TooMany
        → HasMoreThan (CountsAs ByParts setup.now) setup.now limit }
{
    for event in events {
        meet(alloc, setup, histories, fabric, at, *event, limit)?;
    }
    Ok(())
}

// Meets what the event, an enabled one, leads to from the history. The fabric has the history's
// links.
fn meet(
    alloc: Global,
    setup: &Setup,
    histories: &mut Histories,
    fabric: &Fabric,
    at: usize,
    event: Event,
    limit: usize,
) -> Result<(), SearchError>
    requires search { IsUnderWay setup.now limit at histories.old }
    requires at { at < length histories.old.numbers }
    requires links { HasLinks setup.now fabric.now (journal_at setup.now histories.old.steps at) }
    requires enabled { is_enabled setup.now
        (world_after setup.now (journal_at setup.now histories.old.steps at)) event ≡ true }
    ensures met { OnOk result
        (HasMet setup.now limit at (event ∷ []) histories.old histories.new) }
    ensures many { IsErrOf result SearchError.TooMany
        → HasMoreThan (CountsAs ByParts setup.now) setup.now limit }
{
    let numbers = numbers_after(alloc, setup, histories, fabric, at, event)?;
    put(setup, histories, numbers, at, event, limit)
}

// Adds the history that goes on from that one by the event, an enabled one, and that has these
// numbers, unless it is there.
fn put(
    setup: &Setup,
    histories: &mut Histories,
    numbers: Vec<u32>,
    at: usize,
    event: Event,
    limit: usize,
) -> Result<(), SearchError>
    requires search { IsUnderWay setup.now limit at histories.old }
    requires at { at < length histories.old.numbers }
    requires enabled { is_enabled setup.now
        (world_after setup.now (journal_at setup.now histories.old.steps at)) event ≡ true }
    requires numbers { AreNumbersIn setup.now histories.old.trees numbers.items
        (and_then setup.now (journal_at setup.now histories.old.steps at) event) }
    ensures met { OnOk result
        (HasMet setup.now limit at (event ∷ []) histories.old histories.new) }
    ensures many { IsErrOf result SearchError.TooMany
        → HasMoreThan (CountsAs ByParts setup.now) setup.now limit }
{
    let added = histories.numbers.add(numbers)?;
    if !added {
        return Ok(());
    }
    if histories.numbers.len() > limit {
        return Err(SearchError::TooMany);
    }
    add_step(&mut histories.steps, at, event)?;
    Ok(())
}

// Adds the step from the history, unless its number is too large.
fn add_step(steps: &mut Vec<Step>, at: usize, event: Event) -> Result<(), OutOfMemory>
    ensures { OnOk result
        (steps.new.items ≡ steps.old.items ++ record { from = at; event = event } ∷ []) }
{
    if at > u32::MAX as usize {
        return Err(OutOfMemory);
    }
    let from = at as u32;
    steps.push(Step { from, event })?;
    Ok(())
}

// The numbers of the parts of the history and one more event, an enabled one, by kernel. The
// histories stay, and the trees tell their parts as before.
fn numbers_after(
    alloc: Global,
    setup: &Setup,
    histories: &mut Histories,
    fabric: &Fabric,
    at: usize,
    event: Event,
) -> Result<Vec<u32>, OutOfMemory>
    requires met { AreMet setup.now histories.old }
    requires at { at < length histories.old.numbers }
    requires links { HasLinks setup.now fabric.now (journal_at setup.now histories.old.steps at) }
    requires enabled { is_enabled setup.now
        (world_after setup.now (journal_at setup.now histories.old.steps at)) event ≡ true }
    ensures met { AreMet setup.now histories.new }
    ensures steps { histories.new.steps ≡ histories.old.steps }
    ensures histories { histories.new.numbers ≡ histories.old.numbers }
    ensures numbers { IfOk result (λ numbers. AreNumbersIn setup.now histories.new.trees
        numbers.items (and_then setup.now (journal_at setup.now histories.old.steps at) event)) }
{
    let mut numbers = numbers_of(alloc, &histories.numbers, at)?;
    let kernel = event.kernel as usize;
    let from = numbers[kernel];
    numbers[kernel] = part_after(alloc, setup, histories, fabric, at, event, from)?;
    Ok(numbers)
}

// A copy of the numbers of the history.
fn numbers_of(alloc: Global, lists: &NumberLists, at: usize) -> Result<Vec<u32>, OutOfMemory>
    requires { at < length lists.now }
    ensures { IfOk result (λ numbers. numbers.items ≡ slice_index_or lists.now at []) }
{
    let Some(numbers) = lists.get(at) else {
        unreachable!()
    };
    Ok(Vec::from_slice(alloc, numbers)?)
}

// The number of the part that the kernel of the event, an enabled one, has after it; before it that
// is part `from`. The part joins the tree, unless it is there.
fn part_after(
    alloc: Global,
    setup: &Setup,
    histories: &mut Histories,
    fabric: &Fabric,
    at: usize,
    event: Event,
    from: u32,
) -> Result<u32, OutOfMemory>
    requires met { AreMet setup.now histories.old }
    requires at { at < length histories.old.numbers }
    requires links { HasLinks setup.now fabric.now (journal_at setup.now histories.old.steps at) }
    requires enabled { is_enabled setup.now
        (world_after setup.now (journal_at setup.now histories.old.steps at)) event ≡ true }
    requires from { from
        ≡ slice_index_or (slice_index_or histories.old.numbers at []) event.kernel 0 }
    ensures met { AreMet setup.now histories.new }
    ensures steps { histories.new.steps ≡ histories.old.steps }
    ensures histories { histories.new.numbers ≡ histories.old.numbers }
    ensures number { IfOk result (λ number. AreNumbersIn setup.now histories.new.trees
        (slice_set (slice_index_or histories.old.numbers at []) event.kernel number)
        (and_then setup.now (journal_at setup.now histories.old.steps at) event)) }
{
    let message = input_of(fabric, event);
    let kernel = event.kernel as usize;
    if let Some(number) = histories.trees[kernel].find(from, event, &message) {
        return Ok(number);
    }
    match entry_after(alloc, setup, histories.steps.as_slice(), at, event) {
        Ok(entry) => histories.trees[kernel].push(alloc, from, &entry),
        Err(error) => Err(error),
    }
}

// The message that the event takes out of a link, if it is a fetch.
fn input_of(fabric: &Fabric, event: Event) -> Option<Message>
    requires own { event.kernel < fabric.now.kernels }
    requires peer { NamesPeer fabric.now.kernels event.kernel event.act }
    ensures { result ≡ taken fabric.now event.kernel event.act }
{
    match event.act {
        Act::Fetch { from } => fabric.peek(event.kernel, from),
        _ => None,
    }
}
