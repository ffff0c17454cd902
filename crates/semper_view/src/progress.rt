// How far a search is, told on standard error if that is a terminal.
use sem_outcomes::Progress;
use std::io::IsTerminal;

/// After how many steps it is told again.
const STEPS: usize = 4_096;

/// Tells how far a search is.
#[derive(Drop)]
pub struct Shown<'a> {
    rt: &'a HostRuntime,
    is_terminal: bool,
}

impl<'a> Shown<'a> {
    /// Nothing told yet.
    pub fn new(rt: &'a HostRuntime) -> Self {
        Shown {
            rt,
            is_terminal: rt.stderr().is_terminal(),
        }
    }

    /// Clears what was told from the terminal.
    pub fn clear(&self) {
        if self.is_terminal {
            let _ = eprint!(self.rt; "\r                                            \r");
        }
    }
}

impl Progress for Shown<'_> {
    fn met(&mut self, met: usize, done: usize) {
        if self.is_terminal && done % STEPS == 0 {
            let _ = eprint!(self.rt; "\r{done} of {met} so far");
        }
    }
}
