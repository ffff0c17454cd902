//! The bound: a schedule has at most as many entries as its calls can bring, each by its kind, and
//! one for each of its kills. So there are at most 21 for each call, and after as many as a run may
//! have nothing is enabled.
#![tactic(auto)]

pub mod bounds;
