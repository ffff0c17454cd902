// The enabled events of each kernel, kept from event to event.
ghost use Rattle.std.specs.Prelude.{◌≡◌, ◌^◌, ◌+◌, ◌<◌, ◌≤◌, ◌==◌, true, length, map};
ghost use Rattle.std.specs.Prelude.{slice_get, slice_set, sum_by, is_some, OnSome, OnOk, IfOk};
ghost use Rattle.std.specs.List.{flat_map, list_any};
ghost use Rattle.rand_pcg.specs.Pcg.{pcg32};
ghost use Rattle.sem_msg.specs.Journal.{replies as replies_in};
ghost use Rattle.sem_machine.specs.Machine.{World, after, entry_of, is_enabled};
ghost use Rattle.sem_machine.specs.Seeded.{picked};
ghost use Rattle.sem_kernel.specs.Listing.{enabled_of};
ghost use Rattle.sem_kernel.specs.Worlds.{world_of, AreKernelsOf, NamesPeer};
ghost use Rattle.sem_serial.specs.Listed.{AreListed, most_enabled, most_listed};
ghost use Rattle.sem_serial.specs.Listed.{comes_due as comes_due_spec};
ghost use Rattle.sem_serial.specs.Listed.{touched_peer as touched_peer_spec};

use sem_fabric::Fabric;
use sem_kernel::{Kernel, append_enabled};
use sem_key::OutOfMemory;
use sem_msg::{Act, Event, Setup};
use sem_pick::Draws;
use std::alloc::Global;

// The enabled events of each kernel. The kernels and the fabric must be those of the setup.
pub fn list_all(
    alloc: Global,
    setup: &Setup,
    kernels: &[Kernel],
    fabric: &Fabric,
) -> Result<Vec<Vec<Event>>, OutOfMemory>
    requires { AreKernelsOf setup.now kernels.now fabric.now }
    ensures { IfOk result
        (λ lists. AreListed setup.now (world_of kernels.now fabric.now)
        (map (λ list. list.items) lists.items)) }
{
    let mut lists = Vec::new(alloc);
    for kernel in 0..setup.kernels {
        let mut list = Vec::new(alloc);
        append_enabled(setup, kernels, fabric, kernel, &mut list)?;
        lists.push(list)?;
    }
    Ok(lists)
}

// Renews the lists of the kernels whose enabled events can differ after the event, an enabled one,
// which made a reply or not. Takes the number of all events before, and gives the number after.
pub fn renew(
    setup: &Setup,
    kernels: &[Kernel],
    fabric: &Fabric,
    event: Event,
    replied: bool,
    count: usize,
    lists: &mut Vec<Vec<Event>>,
) -> Result<usize, OutOfMemory>
    requires together { AreKernelsOf setup.now kernels.now fabric.now }
    requires count { count ≡ sum_by (λ list. length list.items) lists.old.items }
    requires happened { (before : World) × (is_enabled setup.now before event ≡ true)
        × (world_of kernels.now fabric.now ≡ after setup.now before event)
        × (replied ≡ is_some (entry_of setup.now before event).reply)
        × AreListed setup.now before (map (λ list. list.items) lists.old.items) }
    ensures listed { OnOk result
        (AreListed setup.now (world_of kernels.now fabric.now)
        (map (λ list. list.items) lists.new.items)) }
    ensures count { IfOk result (λ n. n ≡ sum_by (λ list. length list.items) lists.new.items) }
{
    setup.keeps_its_rules();
    if comes_due(setup, fabric, replied) {
        let alloc = *lists.allocator();
        *lists = list_all(alloc, setup, kernels, fabric)?;
        return Ok(event_count(lists.as_slice()));
    }
    let own = renew_list(setup, kernels, fabric, event.kernel, count, lists)?;
    let Some(peer) = touched_peer(setup, kernels, fabric, event) else {
        return Ok(own);
    };
    let both = renew_list(setup, kernels, fabric, peer, own, lists)?;
    Ok(both)
}

// Renews the list of a kernel. Takes the number of all events before, and gives the number after.
fn renew_list(
    setup: &Setup,
    kernels: &[Kernel],
    fabric: &Fabric,
    kernel: u32,
    count: usize,
    lists: &mut Vec<Vec<Event>>,
) -> Result<usize, OutOfMemory>
    requires together { AreKernelsOf setup.now kernels.now fabric.now }
    requires kernel { kernel < length lists.old.items }
    requires count { count ≡ sum_by (λ list. length list.items) lists.old.items }
    requires few { count ≤ most_listed + most_enabled }
    ensures renewed { OnOk result (map (λ list. list.items) lists.new.items
        ≡ slice_set (map (λ list. list.items) lists.old.items) kernel
        (enabled_of setup.now (world_of kernels.now fabric.now) kernel)) }
    ensures count { IfOk result (λ n. n ≡ sum_by (λ list. length list.items) lists.new.items) }
    ensures few { IfOk result (λ n. n ≤ count + most_enabled) }
{
    setup.keeps_its_rules();
    let list = &mut lists[kernel as usize];
    let before = list.len();
    list.clear();
    append_enabled(setup, kernels, fabric, kernel, list)?;
    Ok(count - before + list.len())
}

// Whether a kill comes due with the reply of the last event, if it made one.
fn comes_due(setup: &Setup, fabric: &Fabric, replied: bool) -> bool
    ensures { result ≡ comes_due_spec setup.now (length (replies_in fabric.now.journal)) replied }
{
    replied && is_kill_number(setup, fabric.replies())
}

// Whether a kill waits for exactly that many replies.
fn is_kill_number(setup: &Setup, replies: u64) -> bool
    ensures { result ≡ list_any (λ k. k.1 == replies) setup.now.kills }
{
    setup.kills.as_slice().iter().any(|kill| kill.1 == replies)
}

// The other kernel whose enabled events can differ after the event, if there is one: a fetch makes
// room in a link that was full, and a flush brings the first message that can be fetched.
fn touched_peer(setup: &Setup, kernels: &[Kernel], fabric: &Fabric, event: Event) -> Option<u32>
    requires together { AreKernelsOf setup.now kernels.now fabric.now }
    requires own { event.kernel < setup.now.kernels }
    requires peer { NamesPeer setup.now.kernels event.kernel event.act }
    ensures { result ≡ touched_peer_spec setup.now (world_of kernels.now fabric.now) event.kernel
        event.act }
{
    match event.act {
        Act::Fetch { from } => {
            let most = (setup.window as usize).saturating_sub(1);
            if fabric.waiting(from, event.kernel) < most {
                None
            } else {
                Some(from)
            }
        }
        Act::Flush { to } => {
            if kernels[to as usize].is_handling() || fabric.waiting(event.kernel, to) > 1 {
                None
            } else {
                Some(to)
            }
        }
        _ => None,
    }
}

// The event that the next word picks among those of the lists, that many, if there is one.
pub fn pick(lists: &[Vec<Event>], count: usize, draws: &mut Draws) -> Option<Event>
    requires { count ≡ sum_by (λ list. length list.items) lists.now }
    ensures event { result ≡ picked (pcg32 draws.old).0 (flat_map (λ list. list.items) lists.now) }
    ensures draws { OnSome result (draws.new ≡ (pcg32 draws.old).1) }
{
    if count == 0 {
        return None;
    }
    event_at(lists, draws.pick_place(count))
}

// The number of events in the lists.
pub fn event_count(lists: &[Vec<Event>]) -> usize
    requires { sum_by (λ list. length list.items) lists.now < 2 ^ 64 }
    ensures { result ≡ sum_by (λ list. length list.items) lists.now }
{
    lists.iter().map(|list| list.len()).sum()
}

// The event at that place among those of the lists, counted from 0; none past the end.
fn event_at(lists: &[Vec<Event>], place: usize) -> Option<Event>
    ensures { result ≡ slice_get (flat_map (λ list. list.items) lists.now) place }
{
    let mut left = place;
    for list in lists {
        if left < list.len() {
            return Some(list[left]);
        }
        left -= list.len();
    }
    None
}
