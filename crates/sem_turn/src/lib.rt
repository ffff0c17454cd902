//! The turn over the fabric: one thread at a time has the fabric, and the pass of each kernel has
//! the kernel's part of the journal.
#![tactic(auto)]

mod name;
mod opened;
mod pass;
mod passes;
mod rule;
mod turn;

pub use name::RunName;
pub use opened::Opened;
pub use pass::Pass;
pub use passes::Passes;
pub use turn::{First, Turn};
