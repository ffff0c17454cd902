//! The trace that file commands compile to, with each command above its calls.
#![tactic(auto)]

mod commands;
mod listings;

pub use listings::listing;
