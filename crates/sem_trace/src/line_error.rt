// Why a line of a text is not read, and so the text.
ghost use Rattle.std.specs.Prelude.{◌≡◌};
ghost use Rattle.sem_trace.specs.declared.fault.TraceError.TheVariants.{Refused as RefusedText};
ghost use Rattle.sem_trace.specs.declared.line_error.LineError.TheVariants.{Refused, Memory};
ghost use Rattle.sem_trace.specs.Forms.{whole_line};
ghost use Rattle.sem_trace.specs.LineErrors.{fault_of, at_line as at_line_spec};

use crate::fault::{Cause, LineFault, TraceError, TraceFault};
use sem_key::OutOfMemory;

/// Why a line is not read.
#[derive(Clone, Copy, Debug)]
pub enum LineError {
    Refused(LineFault),
    Memory,
}

impl From<LineFault> for LineError {
    ghost from_gives = { λ fault e. e ≡ Refused fault };

    fn from(fault: LineFault) -> LineError {
        LineError::Refused(fault)
    }
}

// A cause without a word is that of the whole line.
impl From<Cause> for LineError {
    ghost from_gives = { λ cause e. e ≡ Refused (whole_line cause) };

    fn from(cause: Cause) -> LineError {
        LineError::Refused(LineFault { cause, word: None })
    }
}

impl From<OutOfMemory> for LineError {
    ghost from_gives = { λ _ e. e ≡ Memory };

    fn from(_: OutOfMemory) -> LineError {
        LineError::Memory
    }
}

/// The refusal of a text at the whole line of that number.
pub fn refused(line: u64, cause: Cause) -> TraceError
    ensures { result ≡ RefusedText (fault_of line (whole_line cause)) }
{
    TraceError::Refused(TraceFault {
        line,
        word: None,
        cause,
    })
}

/// Why a text is not read, if the line of that number is not.
pub fn at_line(line: u64, e: LineError) -> TraceError
    ensures { result ≡ at_line_spec line e }
{
    match e {
        LineError::Refused(fault) => TraceError::Refused(TraceFault {
            line,
            word: fault.word,
            cause: fault.cause,
        }),
        LineError::Memory => TraceError::Memory,
    }
}
