//! Kernels, each in its own threads, which make one journal together.
#![tactic(auto)]

mod bell;
mod cell;
mod desk;
mod gate;
mod killing;
mod linking;
mod node;
mod places;
mod run;
mod shared;
mod turns;

pub use gate::{Gate, OpenGate};
pub use run::run_threads;
