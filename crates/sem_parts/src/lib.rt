//! A journal, as each kernel alone sees it: the law of the parts, and kernels with a fabric that
//! stand at a schedule.
#![tactic(auto)]

pub mod fetches;
pub mod parts;
pub mod standing;
pub mod steps;
