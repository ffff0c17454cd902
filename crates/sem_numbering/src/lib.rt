//! Numbers for what a search meets: lists of numbers, each once, and trees of the parts of kernels.
#![tactic(auto)]

mod lists;
mod parts;

pub use lists::NumberLists;
pub use parts::PartTree;
