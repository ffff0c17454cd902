// Timelines: what happened to one thing, in order.
use crate::tree::State;

/// What happened: its number, or none if it was so from the start; the text about it; the line next
/// to it; and the state of the thing since.
#[derive(Debug, Drop)]
pub struct Moment {
    pub number: Option<u64>,
    pub text: String,
    pub line: String,
    pub state: State,
}

/// A timeline with that many numbers, from 0 on: the name of the thing, the text about it, and its
/// moments in the order of their numbers.
#[derive(Debug, Drop)]
pub struct Timeline {
    pub len: u64,
    pub name: String,
    pub text: String,
    pub moments: Vec<Moment>,
}

impl Timeline {
    /// The number of the moment at that place; after the last one, the end of the numbers.
    pub fn begin(&self, place: usize) -> u64 {
        match self.moments.get(place) {
            Some(moment) => moment.number.unwrap_or(0).min(self.len),
            None => self.len,
        }
    }
}
