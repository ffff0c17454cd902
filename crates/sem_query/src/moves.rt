// The keys that an entry may move.
ghost use Rattle.std.specs.Prelude.{◌≡◌, ◌++◌, List, OnOk, IfOk};
ghost use Rattle.sem_key.specs.KeyName.{KeyName};
ghost use Rattle.sem_machine.specs.Machine.{side};
ghost use Rattle.sem_query.specs.Building.{ready_key as ready_key_spec, ready_among, ready_by};
ghost use Rattle.sem_query.specs.Building.{revoked_by, moved_at, moved_by};
ghost use Rattle.sem_query.specs.Reaching.{AreRevoked};

use crate::entries::{brought_key, is_revoking, requested, resumed};
use crate::reach::reached_keys;
use crate::sights::{is_ready_with, kernel_at};
use sem_grants::ended_by;
use sem_kernel::{Kernel, World};
use sem_key::{Key, OutOfMemory, VPES};
use sem_msg::{Entry, Parked, Setup};
use std::alloc::Global;

/// The keys that the entry may move in the world before it, except the one that it grants and the
/// marked ones.
pub fn moved_keys(
    alloc: Global,
    setup: &Setup,
    world: &World,
    entry: &Entry,
) -> Result<Vec<Key>, OutOfMemory>
    ensures { IfOk result (λ keys. (reached : List KeyName)
        × AreRevoked (side world.now.world entry.now.event.kernel).caps entry.now reached
        × (keys.items ≡ moved_by setup.now world.now.world entry.now reached)) }
{
    let mut keys = Vec::new(alloc);
    if let Some(key) = brought_key(entry) {
        keys.push(key)?;
    }
    push_moved_at(alloc, &mut keys, setup, world, entry)?;
    Ok(keys)
}

// Appends the keys that the entry may move at its kernel.
fn push_moved_at(
    alloc: Global,
    keys: &mut Vec<Key>,
    setup: &Setup,
    world: &World,
    entry: &Entry,
) -> Result<(), OutOfMemory>
    ensures { OnOk result ((reached : List KeyName)
        × AreRevoked (side world.now.world entry.now.event.kernel).caps entry.now reached
        × (keys.new.items ≡ keys.old.items
        ++ moved_at setup.now entry.now.event.kernel
        (side world.now.world entry.now.event.kernel) entry.now reached)) }
{
    let Some(kernel) = kernel_at(world, entry.event.kernel) else {
        return Ok(());
    };
    push_ready_by(
        keys,
        setup,
        entry.event.kernel,
        kernel,
        resumed(entry.event.act),
    )?;
    if !is_revoking(entry) {
        return Ok(());
    }
    push_revoked(alloc, keys, setup, kernel, entry)
}

// Appends the keys that the entry, which revokes, may move at its kernel.
fn push_revoked(
    alloc: Global,
    keys: &mut Vec<Key>,
    setup: &Setup,
    kernel: &Kernel,
    entry: &Entry,
) -> Result<(), OutOfMemory>
    ensures { OnOk result ((reached : List KeyName)
        × AreRevoked kernel.now.side.caps entry.now reached
        × (keys.new.items ≡ keys.old.items
        ++ revoked_by setup.now entry.now.event.kernel kernel.now.side entry.now reached)) }
{
    let number = entry.event.kernel;
    push_ready(keys, setup, number, kernel, entry.cut)?;
    push_ready(keys, setup, number, kernel, requested(entry))?;
    push_ready_by(keys, setup, number, kernel, ended_by(entry))?;
    let reached = reached_keys(alloc, kernel, entry)?;
    keys.extend_from_slice(&reached)?;
    Ok(())
}

// Appends the key, if there is one and a call of the kernel of that number is ready to install it.
fn push_ready(
    keys: &mut Vec<Key>,
    setup: &Setup,
    number: u32,
    kernel: &Kernel,
    key: Option<Key>,
) -> Result<(), OutOfMemory>
    ensures { OnOk result (keys.new.items ≡ keys.old.items
        ++ ready_among setup.now number kernel.now.side key) }
{
    if let Some(key) = key {
        let is_ready = is_ready_with(key, &kernel.parked(key.vpe));
        if is_ready && setup.owner_of(key) == number {
            keys.push(key)?;
        }
    }
    Ok(())
}

// Appends the key that the call of the VPE, if there is one, is ready to install at the kernel.
fn push_ready_by(
    keys: &mut Vec<Key>,
    setup: &Setup,
    number: u32,
    kernel: &Kernel,
    vpe: Option<u16>,
) -> Result<(), OutOfMemory>
    ensures { OnOk result (keys.new.items ≡ keys.old.items
        ++ ready_by setup.now number kernel.now.side vpe) }
{
    let Some(vpe) = vpe else {
        return Ok(());
    };
    if vpe >= VPES {
        return Ok(());
    }
    if let Some(key) = ready_key(&kernel.parked(vpe)) {
        if key.vpe == vpe && setup.owner_of(key) == number {
            keys.push(key)?;
        }
    }
    Ok(())
}

// The key that a call in that state is ready to install.
fn ready_key(state: &Option<Parked>) -> Option<Key>
    ensures { result ≡ ready_key_spec state.now }
{
    match state {
        Some(Parked::ObtainReady { key, .. }) => Some(*key),
        _ => None,
    }
}
