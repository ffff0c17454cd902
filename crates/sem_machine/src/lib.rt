//! The machine: what a kernel does in one atomic step, and which schedules many kernels have. The
//! definitions stand in `specs/`, and laws about them in `proofs/`. The crates of the code prove
//! that they do what the definitions say.
#![tactic(auto)]

pub mod laws;
