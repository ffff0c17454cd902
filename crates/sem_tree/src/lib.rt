//! The capabilities after the first entries of a report, as a forest.
#![tactic(auto)]

mod clears;
mod forests;
mod nodes;
mod places;
mod rows;
mod standings;
mod takings;
mod tracks;
mod trees;

pub use forests::{ForestsFault, forest_lines};
pub use rows::{TreeRow, tree_rows};
pub use takings::takes;
pub use trees::{KEYS, TreeForm, TreeRequest, tree};
