/// Learns how far a search is.
pub trait Progress {
    /// That many histories have been met, or that many seeds are to run; and that many of them are
    /// done.
    fn met(&mut self, met: usize, done: usize);
}

/// Learns it, and does nothing.
#[derive(Debug, Drop)]
pub struct Quiet;

impl Progress for Quiet {
    fn met(&mut self, _met: usize, _done: usize) {}
}
