ghost use Rattle.std.specs.Prelude.{◌≡◌};
ghost use Rattle.sem_trace.specs.Causes.{cause_name};

use std::fmt;
use thiserror::Error;

/// Why a line is refused.
#[derive(Clone, Copy, Debug, PartialEq, Eq)]
pub enum Cause {
    /// A byte that is neither a tab nor printable.
    NotText,
    /// A word that cannot stand in its place.
    UnknownWord,
    /// A word that is no number, in the place of one.
    BadNumber,
    /// A number that its place does not allow, or memory that ends too far.
    OutOfRange,
    /// An earlier line says this already.
    Twice,
    /// It names something that no earlier line declares.
    Undeclared,
    /// A place without a word, or a text without its last line.
    Missing,
    /// A word after the last place, a line after the last one, or a call too many.
    TooMany,
    /// More bytes than a line may have.
    LineTooLong,
    /// More bytes than a text may have.
    InputTooLong,
    /// Another spelling than the canonical one. Only a report is refused for it.
    NotCanonical,
}

impl Cause {
    /// Its name, as messages tell it.
    pub fn name(self) -> &'static str
        ensures { result.now ≡ cause_name self }
    {
        match self {
            Cause::NotText => "NotText",
            Cause::UnknownWord => "UnknownWord",
            Cause::BadNumber => "BadNumber",
            Cause::OutOfRange => "OutOfRange",
            Cause::Twice => "Twice",
            Cause::Undeclared => "Undeclared",
            Cause::Missing => "Missing",
            Cause::TooMany => "TooMany",
            Cause::LineTooLong => "LineTooLong",
            Cause::InputTooLong => "InputTooLong",
            Cause::NotCanonical => "NotCanonical",
        }
    }
}

impl fmt::Display for Cause {
    ghost use Rattle.std.specs.Prelude.{Some};
    ghost use Rattle.sem_trace.specs.Causes.{cause_name};

    ghost output = { λ cause. Some (cause_name cause) };

    fn fmt<W: fmt::Write>(&self, f: &mut fmt::Formatter<W>) -> fmt::Result {
        f.write_str(self.name())
    }
}

impl std::error::Error for Cause {}

/// Why a line is refused, and which of its words is wrong.
#[derive(Clone, Copy, Debug, PartialEq, Eq)]
pub struct LineFault {
    pub cause: Cause,
    /// The word, counted from 0. If a word is missing, it is the number of the line's words; none
    /// if the whole line is wrong.
    pub word: Option<u64>,
}

/// The first bad line, counted from 1, which of its words is wrong, and the cause. A text that is
/// too long is refused at line 0.
#[derive(Clone, Copy, Debug, PartialEq, Eq, Error)]
#[error("line {line}: {cause}")]
pub struct TraceFault {
    pub line: u64,
    /// The word, counted from 0. If a word is missing, it is the number of the line's words; none
    /// if the whole line or the whole text is wrong.
    pub word: Option<u64>,
    pub cause: Cause,
}

/// Why a text is not read.
#[derive(Clone, Copy, Debug, PartialEq, Eq, Error)]
pub enum TraceError {
    /// It stands for no setup.
    #[error("{0}")]
    Refused(TraceFault),
    /// Memory was refused.
    #[error("out of memory")]
    Memory,
}
