// What a world shows.
ghost use Rattle.std.specs.Prelude.{◌≡◌, ◌<◌, is_some, option_copied};
ghost use Rattle.std.specs.Option.{option_map, option_map_or};
ghost use Rattle.sem_key.specs.Capability.{capability_of};
ghost use Rattle.sem_msg.specs.Lookups.{owner_of};
ghost use Rattle.sem_msg.specs.ParkedStates.{is_ready_with as is_ready_with_spec};
ghost use Rattle.sem_machine.specs.Sides.{no_side, cap, parked};
ghost use Rattle.sem_machine.specs.Machine.{side};
ghost use Rattle.sem_query.specs.Whereabouts.{held_as as held_as_spec};
ghost use Rattle.sem_query.specs.Changes.{seen_at_home};
ghost use Rattle.sem_query.specs.Building.{seen_granted as seen_granted_spec};

use crate::holder::Holder;
use sem_kernel::{Kernel, World};
use sem_key::{Cap, Key, VPES, same_key};
use sem_msg::{Parked, Setup};

/// The kernel of that number; none if there is no such kernel.
pub fn kernel_at(world: &World, number: u32) -> Option<&Kernel>
    ensures { option_map_or (λ k. k.side) (option_copied result) no_side
        ≡ side world.now.world number }
{
    world.kernels().get(number as usize)
}

/// Where the key is, as its owner sees it: held, on its way to a call that is ready to install it,
/// or nowhere.
pub fn see(setup: &Setup, world: &World, key: Key) -> Holder
    ensures { result ≡ seen_at_home key (side world.now.world (owner_of setup.now key)) }
{
    let Some(kernel) = kernel_at(world, setup.owner_of(key)) else {
        return Holder::No;
    };
    match kernel.held(key) {
        Some(cap) => held_as(cap),
        None if is_ready_with(key, &kernel.parked(key.vpe)) => Holder::Way,
        None => Holder::No,
    }
}

/// The selector at which the key's owner holds it, if it does.
pub fn held_selector(setup: &Setup, world: &World, key: Key) -> Option<u8>
    ensures { result ≡ option_map (λ c. c.selector)
        (cap (side world.now.world (owner_of setup.now key)) key) }
{
    let kernel = kernel_at(world, setup.owner_of(key))?;
    match kernel.held(key) {
        Some(cap) => Some(cap.selector),
        None => None,
    }
}

/// Where a just granted key is: held by its owner, or on its way.
pub fn see_granted(setup: &Setup, world: &World, key: Key) -> Holder
    ensures { result ≡ seen_granted_spec key (side world.now.world (owner_of setup.now key)) }
{
    let Some(kernel) = kernel_at(world, setup.owner_of(key)) else {
        return Holder::Way;
    };
    match kernel.held(key) {
        Some(cap) => held_as(cap),
        None => Holder::Way,
    }
}

/// Whether a call in that state is ready to install the key.
pub fn is_ready_with(key: Key, state: &Option<Parked>) -> bool
    ensures { result ≡ is_ready_with_spec key state.now }
{
    match state {
        Some(Parked::ObtainReady { key: ready, .. }) => same_key(ready, &key),
        _ => false,
    }
}

/// The state in which the call of a VPE of the kernel is parked; none if no call of it is parked.
pub fn parked_state(world: &World, kernel: u32, vpe: u16) -> Option<Parked>
    requires { vpe < VPES }
    ensures { result ≡ parked (side world.now.world kernel) vpe }
{
    match kernel_at(world, kernel) {
        Some(kernel) => kernel.parked(vpe),
        None => None,
    }
}

/// Whether a call of the key's VPE, one of the kernel, is ready to install the key.
pub fn is_ready_at(world: &World, kernel: u32, key: Key) -> bool
    ensures { result ≡ is_ready_with_spec key (parked (side world.now.world kernel) key.vpe) }
{
    is_ready_with(key, &parked_state(world, kernel, key.vpe))
}

/// Whether the kernel holds the key.
pub fn is_held_at(world: &World, kernel: u32, key: Key) -> bool
    ensures { result ≡ is_some (cap (side world.now.world kernel) key) }
{
    match kernel_at(world, kernel) {
        Some(kernel) => kernel.held(key).is_some(),
        None => false,
    }
}

// Where a held key is, by its capability.
fn held_as(cap: &Cap) -> Holder
    ensures { result ≡ held_as_spec (capability_of cap.now) }
{
    match cap.mark {
        Some(_) => Holder::Marked(cap.selector),
        None => Holder::Unmarked(cap.selector),
    }
}
