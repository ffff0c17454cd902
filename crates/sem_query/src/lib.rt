//! Questions about a journal: where a key is after its first entries, along which line it was made,
//! and why a call was denied.
#![tactic(auto)]

mod builds;
mod denials;
mod entries;
mod holder;
mod index;
pub mod laws;
mod life;
mod marked;
mod moves;
mod paths;
mod reach;
mod settling;
mod sighting;
mod sightings;
mod sights;
mod states;
mod tellings;

pub use denials::denied;
pub use holder::Holder;
pub use index::Index;
pub use life::{Life, Marks};
pub use paths::path;
pub use sighting::Sighting;
pub use tellings::push_whereabouts;
