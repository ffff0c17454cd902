// The lines that tell why a report is refused. If memory is refused, each of these functions may
// have appended a part.
ghost use Rattle.std.specs.Prelude.{◌≡◌, ◌++◌, codes, decimal, OnOk};
ghost use Rattle.sem_cli.specs.Refusals.{bad_line, replayed_text, differing_line};
ghost use Rattle.sem_cli.specs.Refusals.{going_on_line};

use crate::messages::push_fault;
use sem_journal::push_entry_words;
use sem_key::OutOfMemory;
use sem_msg::Entry;
use sem_text::push_number;
use sem_trace::TraceFault;

/// Appends the line that tells which line of a report is bad, and why.
pub fn push_bad_line(out: &mut Vec<u8>, fault: &TraceFault) -> Result<(), OutOfMemory>
    ensures ok { OnOk result (out.new.items ≡ out.old.items ++ bad_line fault.now) }
{
    out.extend_from_slice(b"report refused: line ")?;
    push_fault(out, fault)
}

/// Appends the line that tells which entry its event does not make, and which one the event makes;
/// none if the event is not enabled.
pub fn push_differing(
    out: &mut Vec<u8>,
    number: u64,
    entered: &Entry,
    replayed: &Option<Entry>,
) -> Result<(), OutOfMemory>
    ensures ok { OnOk result (out.new.items ≡ out.old.items
        ++ differing_line number entered.now replayed.now) }
{
    push_place(out, number)?;
    push_entry_words(out, entered)?;
    out.extend_from_slice(b"; replayed ")?;
    push_replayed(out, replayed)?;
    out.push(b'\n')?;
    Ok(())
}

/// Appends the line that tells that an event is enabled after all of that many entries, and which
/// entry the first such event makes.
pub fn push_going_on(out: &mut Vec<u8>, number: u64, next: &Entry) -> Result<(), OutOfMemory>
    ensures ok { OnOk result (out.new.items ≡ out.old.items ++ going_on_line number next.now) }
{
    push_place(out, number)?;
    out.extend_from_slice(b"end; replayed ")?;
    push_entry_words(out, next)?;
    out.push(b'\n')?;
    Ok(())
}

// Appends the beginning of a line about an entry.
fn push_place(out: &mut Vec<u8>, number: u64) -> Result<(), OutOfMemory>
    ensures ok { OnOk result (out.new.items ≡ out.old.items
        ++ (codes "report refused: entry " ++ decimal number ++ codes ": entered ")) }
{
    out.extend_from_slice(b"report refused: entry ")?;
    push_number(out, number)?;
    Ok(out.extend_from_slice(b": entered ")?)
}

// Appends the entry that an event makes, or that the event is not enabled.
fn push_replayed(out: &mut Vec<u8>, replayed: &Option<Entry>) -> Result<(), OutOfMemory>
    ensures ok { OnOk result (out.new.items ≡ out.old.items ++ replayed_text replayed.now) }
{
    match replayed {
        Some(entry) => push_entry_words(out, entry),
        None => out.extend_from_slice(b"not enabled"),
    }
}
