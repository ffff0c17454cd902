//! File commands: what a text of them says, and the setup that they compile to, defined.
#![tactic(auto)]

mod acts;
mod context;
mod counts;
mod enter;
mod files;
mod forms;
mod handles;
mod lines;
mod numbers;
mod reader;
mod tables;

pub use counts::EXTENT;
pub use files::{ClientList, Command, CommandList, FileAct, FileDecl, FileList, Files};
pub use handles::{HANDLES, Handles};
pub use reader::read_files;
