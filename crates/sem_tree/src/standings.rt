// The states of keys.
use sem_kernel::World;
use sem_key::Key;
use sem_msg::Setup;

/// The holder of a key, and whether the key is marked there.
#[derive(Clone, Copy, Debug)]
pub struct Hold {
    pub selector: u8,
    pub is_marked: bool,
}

/// The hold of the key in the world, if its VPE's kernel holds it.
pub fn hold_of(world: &World, setup: &Setup, key: Key) -> Option<Hold> {
    let kernel = world.kernels().get(setup.kernel_of(key.vpe) as usize)?;
    let cap = kernel.held(key)?;
    Some(Hold {
        selector: cap.selector,
        is_marked: cap.mark.is_some(),
    })
}
