ghost use Rattle.std.specs.Prelude.{◌≡◌, ◌++◌, flat_map, map, reverse, slice_get, IfOk, OnOk};
ghost use Rattle.std.specs.Option.{option_to_list};
ghost use Rattle.sem_msg.specs.Audits.{held_pairs};
ghost use Rattle.sem_machine.specs.HeldKeys.{keys_held};
ghost use Rattle.sem_audit.specs.Holding.{IsInOrder, KeepsTies, holding};

use sem_kernel::Kernel;
use sem_key::{OutOfMemory, pack};
use sem_msg::{Held, HeldList};
use std::alloc::Global;

/// The keys that the kernels hold, with their selectors, in rising key order.
pub fn held_list(alloc: Global, kernels: &[Kernel]) -> Result<HeldList, OutOfMemory>
    ensures { IfOk result (λ list. held_pairs list ≡ keys_held (map (λ k. k.side) kernels.now)) }
{
    let mut found = found_held(alloc, kernels)?;
    sort_held(&mut found)?;
    list_of(alloc, &found)
}

// What the kernels hold, from the last kernel's last place to the first's first: where a key stands
// twice, a stable sort then puts what comes later first.
fn found_held(alloc: Global, kernels: &[Kernel]) -> Result<Vec<Held>, OutOfMemory>
    ensures { IfOk result (λ found. found.items ≡ reverse (map holding
        (flat_map (λ s. s.caps) (map (λ k. k.side) kernels.now)))) }
{
    let mut found = Vec::new(alloc);
    for at in (0..kernels.len()).rev() {
        push_held(&mut found, &kernels[at])?;
    }
    Ok(found)
}

// Appends what the kernel holds, from the last place to the first.
fn push_held(found: &mut Vec<Held>, kernel: &Kernel) -> Result<(), OutOfMemory>
    ensures { OnOk result (found.new.items
        ≡ found.old.items ++ reverse (map holding kernel.now.side.caps)) }
{
    for place in (0..kernel.capability_count()).rev() {
        push_held_at(found, kernel, place)?;
    }
    Ok(())
}

// Appends what the kernel holds at that place, if there is something.
fn push_held_at(found: &mut Vec<Held>, kernel: &Kernel, place: usize) -> Result<(), OutOfMemory>
    ensures { OnOk result (found.new.items ≡ found.old.items
        ++ map holding (option_to_list (slice_get kernel.now.side.caps place))) }
{
    if let Some(cap) = kernel.capability(place) {
        found.push(Held {
            key: cap.key,
            sel: cap.selector,
        })?;
    }
    Ok(())
}

// Puts what is held into rising key order.
fn sort_held(found: &mut Vec<Held>) -> Result<(), OutOfMemory>
    ensures order { OnOk result (IsInOrder found.new.items) }
    ensures ties { KeepsTies found.old.items found.new.items }
{
    found.sort_by_key(|held| pack(held.key))
}

// A list of these.
fn list_of(alloc: Global, found: &[Held]) -> Result<HeldList, OutOfMemory>
    ensures { IfOk result (λ list. list ≡ found.now) }
{
    let mut list = HeldList::new(alloc);
    for one in found {
        list.push(*one)?;
    }
    Ok(list)
}
