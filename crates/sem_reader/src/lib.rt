//! The reader of traces: the setup that a text stands for, or why it is refused.
#![tactic(auto)]

mod context;
mod enter;
mod laws;
mod reader;
mod setups;
mod tables;

pub use laws::{canonical_stands, one_reading, texts_stand_for_setups};
pub use reader::{read_section, read_trace};
