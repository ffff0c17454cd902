//! What a journal reads and writes in memory, and what memory holds after it: the definitions, and
//! the reads and writes that entries tell.
#![tactic(auto)]

mod access;
mod look;
mod run;
mod transfer;

pub use access::{Access, AccessList};
pub use look::Look;
pub use run::Run;
pub use transfer::{Transfer, transfer_of};
