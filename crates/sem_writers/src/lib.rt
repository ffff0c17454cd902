//! Which VPE wrote what memory holds after the first entries of a report, and what each read found.
#![tactic(auto)]

mod areas;
mod bars;
mod cells;
mod columns;
mod drawings;
mod holdings;
mod rows;

pub use cells::{Cell, cells_of};
pub use drawings::{MemoryRequest, ROWS, memory_picture};
pub use holdings::{Holdings, holdings_after};
pub use rows::Written;
