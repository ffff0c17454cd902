//! A kernel with everything that it keeps, and its steps; all kernels with their fabric, and their
//! steps.
#![tactic(auto)]

// Lends these stores of a kernel, each apart from the others.
macro_rules! lend {
    ($stores:ident => $($store:ident),+) => {
        let Stores { $($store),+, .. } = $stores;
    };
}

mod acts;
mod booting;
mod carrying;
mod enabling;
mod ends;
mod events;
mod kernel;
mod listing;
mod making;
mod own;
mod revokes;
mod rooms;
mod shared;
mod starts;
mod stores;
mod strays;
mod upcalls;
mod world;

pub use events::{StepError, advance, do_enabled_event, do_event, is_enabled, try_step};
pub use kernel::Kernel;
pub use listing::{append_enabled, enabled_events};
pub use own::OwnVpe;
pub use sem_key::OutOfMemory;
pub use starts::boot;
pub use world::{World, boot_kernels};
