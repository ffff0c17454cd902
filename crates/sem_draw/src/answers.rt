// What a drawing program is asked for, and what it writes.
use std::alloc::Global;

/// How a picture is written.
#[derive(Clone, Copy, Debug, PartialEq, Eq)]
pub enum Picture {
    /// As text with box-drawing characters.
    Boxes,
    /// As text without them.
    Plain,
    /// As SVG.
    Svg,
}

/// How a request ends.
#[derive(Clone, Copy, Debug, PartialEq, Eq)]
pub enum Ending {
    Done,
    /// The input is refused.
    Refused,
    /// The words ask for something that the input does not have.
    WrongWords,
}

/// The text for standard output and the text for standard error. No call of it takes memory.
#[derive(Debug, Drop)]
pub struct Answer {
    pub ending: Ending,
    pub out: String,
    pub error: String,
}

impl Answer {
    /// An answer for standard output.
    pub fn done(alloc: Global, out: String) -> Answer {
        Answer {
            ending: Ending::Done,
            out,
            error: String::new(alloc),
        }
    }

    /// An answer for standard error.
    pub fn failed(alloc: Global, ending: Ending, error: String) -> Answer {
        Answer {
            ending,
            out: String::new(alloc),
            error,
        }
    }
}
