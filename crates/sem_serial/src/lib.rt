//! Runs of kernels and their fabric, one event after another: by the words of a seed, and by given
//! events.
#![tactic(auto)]

mod drains;
mod faults;
mod lists;
mod plays;

pub use drains::drain;
pub use faults::PlayError;
pub use plays::play;
pub use sem_kernel::boot;
