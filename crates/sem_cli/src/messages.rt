ghost use Rattle.std.specs.Prelude.{◌≡◌, ◌++◌, OnOk};
ghost use Rattle.sem_cli.specs.Messages.{usage_line, ok_line};
ghost use Rattle.sem_cli.specs.Messages.{fault_words, refused_line, files_refused_line};

use sem_key::OutOfMemory;
use sem_text::push_number;
use sem_trace::TraceFault;

/// The line that tells which words are commands.
pub fn usage() -> &'static [u8]
    ensures { result.now ≡ usage_line }
{
    b"usage: semper run SEED | threads SEED | check | gen SEED VPES CALLS \
        | soak SEED VPES CALLS | contents | files SEED | query holder KEY N \
        | query path KEY | query denied N\n"
}

/// The line that says that a report is that of a complete schedule.
pub fn ok() -> &'static [u8]
    ensures { result.now ≡ ok_line }
{
    b"ok\n"
}

/// Appends the line that tells which line of a trace is bad, and why. If memory is refused, it may
/// have appended a part.
pub fn push_refused(out: &mut Vec<u8>, fault: &TraceFault) -> Result<(), OutOfMemory>
    ensures ok { OnOk result (out.new.items ≡ out.old.items ++ refused_line fault.now) }
{
    out.extend_from_slice(b"trace refused: line ")?;
    push_fault(out, fault)
}

/// Appends the line that tells which line of file commands is bad, and why. If memory is refused,
/// it may have appended a part.
pub fn push_files_refused(out: &mut Vec<u8>, fault: &TraceFault) -> Result<(), OutOfMemory>
    ensures ok { OnOk result (out.new.items ≡ out.old.items ++ files_refused_line fault.now) }
{
    out.extend_from_slice(b"files refused: line ")?;
    push_fault(out, fault)
}

// Appends the number of a bad line, and its cause, to the end of a line.
pub(crate) fn push_fault(out: &mut Vec<u8>, fault: &TraceFault) -> Result<(), OutOfMemory>
    ensures ok { OnOk result (out.new.items ≡ out.old.items ++ fault_words fault.now) }
{
    push_number(out, fault.line)?;
    out.extend_from_slice(b": ")?;
    out.extend_from_slice(fault.cause.name().as_bytes())?;
    out.push(b'\n')?;
    Ok(())
}
