// Which entry settled the answer to a call of a VPE.
ghost use Rattle.std.specs.Prelude.{◌≡◌, ◌↔◌, ℕ, ◌≤◌, ◌<◌, length, IsTrue, IfOk};
ghost use Rattle.sem_machine.specs.Schedules.{IsSchedule};
ghost use Rattle.sem_query.specs.Denials.{IsCallAt, IsLastCall, Settles};
ghost use Rattle.sem_query.specs.Parking.{states_since as states_since_spec, IsFirstPlace};

use crate::sights::parked_state;
use crate::states::same_state;
use sem_kernel::World;
use sem_key::{OutOfMemory, VPES};
use sem_msg::{Act, Entry, Journal, Parked, Setup};
use std::alloc::Global;

/// Entry `n` answers a call of the VPE; returns the entry that settled the answer. If that is not
/// the call itself, this goes through the events before entry `n` once more.
///
/// The VPE must have made a call at or before entry `n`.
pub fn settling_entry(
    alloc: Global,
    setup: &Setup,
    journal: &Journal,
    vpe: u16,
    n: usize,
) -> Result<usize, OutOfMemory>
    requires schedule { IsSchedule setup.now journal.now.entries }
    requires called { (b : ℕ) × (b ≤ n) × IsCallAt journal.now.entries vpe b }
    requires there { n < length journal.now.entries }
    ensures settles { IfOk result (λ i. Settles setup.now journal.now.entries vpe n i) }
    ensures by_then { IfOk result (λ i. i ≤ n) }
{
    setup.keeps_its_rules();
    let call = last_call(journal, vpe, n);
    if call == n {
        return Ok(n);
    }
    let states = states_since(alloc, setup, &journal.as_slice()[..n], vpe, call)?;
    let last = &states[n - call - 1];
    Ok(call + first_place(&states, last))
}

// The last call of the VPE at or before entry `n`.
fn last_call(journal: &Journal, vpe: u16, n: usize) -> usize
    requires { (b : ℕ) × (b ≤ n) × IsCallAt journal.now.entries vpe b }
    ensures { IsLastCall journal.now.entries vpe n result }
{
    let mut place = n;
    while !is_call_at(journal, vpe, place) {
        place -= 1;
    }
    place
}

// Whether the entry of that number is a call of the VPE.
fn is_call_at(journal: &Journal, vpe: u16, place: usize) -> bool
    ensures { IsTrue result ↔ IsCallAt journal.now.entries vpe place }
{
    match journal.get(place) {
        Some(entry) => entry.event.act == Act::Call { vpe },
        None => false,
    }
}

// The states of the VPE's parked call after each of the entries from one on. It goes through the
// events once more.
fn states_since(
    alloc: Global,
    setup: &Setup,
    entries: &[Entry],
    vpe: u16,
    from: usize,
) -> Result<Vec<Option<Parked>>, OutOfMemory>
    requires schedule { IsSchedule setup.now entries.now }
    requires vpe { vpe < VPES }
    ensures { IfOk result
        (λ states. states.items ≡ states_since_spec setup.now entries.now vpe from) }
{
    let kernel = setup.kernel_of(vpe);
    let mut world = World::boot(alloc, setup)?;
    let mut states = Vec::new(alloc);
    for (place, entry) in entries.iter().enumerate() {
        world.advance(entry.event)?;
        if from <= place {
            states.push(parked_state(&world, kernel, vpe))?;
        }
    }
    Ok(states)
}

// The first place of the state among these, or the number of states if it is not among them.
fn first_place(states: &[Option<Parked>], state: &Option<Parked>) -> usize
    ensures { IsFirstPlace states.now state.now result }
{
    for (place, other) in states.iter().enumerate() {
        if same_state(other, state) {
            return place;
        }
    }
    states.len()
}
