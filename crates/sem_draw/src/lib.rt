//! Pictures as text and as SVG: message charts, trees, bars and timelines. This crate does not know
//! what it draws.
#![tactic(auto)]

mod answers;
mod bar;
mod bar_svg;
mod bar_text;
mod cells;
mod chart;
mod chart_svg;
mod chart_text;
mod lines;
mod svg;
mod table;
mod timeline;
mod timeline_svg;
mod timeline_text;
mod tree;
mod tree_dot;
mod tree_svg;
mod tree_text;

pub use answers::{Answer, Ending, Picture};
pub use bar::{Bar, Owner, Span, Stretch};
pub use bar_svg::bars_as_svg;
pub use bar_text::{CELLS, bars_as_text};
pub use chart::{Chart, Early, Family, Lane, Mark, Row};
pub use chart_svg::chart_as_svg;
pub use chart_text::{chart_as_text, fits};
pub use lines::WIDTH;
/// Memory was refused.
pub use std::alloc::AllocError as OutOfMemory;
pub use table::Column;
pub use timeline::{Moment, Timeline};
pub use timeline_svg::timeline_as_svg;
pub use timeline_text::timeline_as_text;
pub use tree::{Node, State};
pub use tree_dot::tree_as_dot;
pub use tree_svg::tree_as_svg;
pub use tree_text::{LEVELS, tree_as_text};
