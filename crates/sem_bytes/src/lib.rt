//! The proof that a VPE reads and writes only memory that it was granted, as contracts of functions
//! without parameters.
#![tactic(auto)]

pub mod laws;
