// The text of a report. If memory is refused, each of these functions but `print_report` may have
// appended a part.
ghost use Rattle.std.specs.Prelude.{◌≡◌, [], ◌∷◌, ◌++◌, map, codes, decimal, slice_get};
ghost use Rattle.std.specs.Prelude.{OnOk, OnErr};
ghost use Rattle.std.specs.Option.{option_to_list};
ghost use Rattle.sem_text.specs.Lines.{line, text};
ghost use Rattle.sem_msg.specs.Audits.{held_pairs};
ghost use Rattle.sem_journal.specs.EntryText.{entry_words};
ghost use Rattle.sem_journal.specs.ReportText.{held_line, audit_lines, report_text};
ghost use Rattle.sem_report.specs.ReportHead.{BeginsReport};

use sem_journal::push_entry;
use sem_key::OutOfMemory;
use sem_msg::{Audit, Held, HeldList, Journal, Setup};
use sem_trace::{push_key_word, push_line, push_number_word, push_trace};
use std::alloc::Global;

// Appends the line of the entry at that place, if there is one.
fn push_entry_at(out: &mut Vec<u8>, journal: &Journal, at: usize) -> Result<(), OutOfMemory>
    ensures ok { OnOk result (out.new.items ≡ out.old.items
        ++ text (map entry_words (option_to_list (slice_get journal.now.entries at)))) }
{
    match journal.get(at) {
        Some(entry) => push_entry(out, &entry),
        None => Ok(()),
    }
}

// Appends a line for each entry.
fn push_entries(out: &mut Vec<u8>, journal: &Journal) -> Result<(), OutOfMemory>
    ensures ok { OnOk result
        (out.new.items ≡ out.old.items ++ text (map entry_words journal.now.entries)) }
{
    for at in 0..journal.len() {
        push_entry_at(out, journal, at)?;
    }
    Ok(())
}

/// Appends the line of a held key.
pub fn push_held(out: &mut Vec<u8>, held: &Held) -> Result<(), OutOfMemory>
    ensures ok { OnOk result
        (out.new.items ≡ out.old.items ++ line (held_line (held.now.key, held.now.sel))) }
{
    out.extend_from_slice(b"key")?;
    push_key_word(out, &held.key)?;
    push_number_word(out, u64::from(held.sel))?;
    Ok(out.push(b'\n')?)
}

// Appends a line for each held key.
fn push_all_held(out: &mut Vec<u8>, held: &HeldList) -> Result<(), OutOfMemory>
    ensures ok { OnOk result
        (out.new.items ≡ out.old.items ++ text (map held_line (held_pairs held.now))) }
{
    for one in held.as_slice() {
        push_held(out, one)?;
    }
    Ok(())
}

/// Appends the lines of the audit, from `audit` on to the last line of a report. If memory is
/// refused, it may have appended a part.
pub fn push_audit(out: &mut Vec<u8>, audit: &Audit) -> Result<(), OutOfMemory>
    ensures ok { OnOk result (out.new.items ≡ out.old.items
        ++ text (audit_lines audit.now.made audit.now.cut (held_pairs audit.now.held))) }
{
    push_line(out, b"audit", &[])?;
    push_line(out, b"made", &[audit.made])?;
    push_line(out, b"cut", &[audit.cut])?;
    push_line(out, b"held", &[audit.held.len() as u64])?;
    push_all_held(out, &audit.held)?;
    push_line(out, b"end", &[])
}

// Appends the first line.
fn push_header(out: &mut Vec<u8>, setup: &Setup) -> Result<(), OutOfMemory>
    ensures ok { OnOk result (out.new.items ≡ out.old.items
        ++ line (codes "semper report" ∷ decimal setup.now.version ∷ [])) }
{
    push_line(out, b"semper report", &[u64::from(setup.version)])
}

/// Appends the lines of a report before those of its entries: its first line, the trace, and the
/// line that says how many entries there are. If memory is refused, it may have appended a part.
pub fn push_head(out: &mut Vec<u8>, setup: &Setup, journal: &Journal) -> Result<(), OutOfMemory>
    ensures ok { OnOk result
        (BeginsReport setup.now journal.now.entries out.old.items out.new.items) }
{
    push_header(out, setup)?;
    push_trace(out, setup)?;
    push_line(out, b"journal", &[journal.len() as u64])
}

fn push_report(
    out: &mut Vec<u8>,
    setup: &Setup,
    journal: &Journal,
    audit: &Audit,
) -> Result<(), OutOfMemory>
    ensures ok { OnOk result (out.new.items ≡ out.old.items
        ++ report_text setup.now journal.now.entries audit.now.made audit.now.cut
        (held_pairs audit.now.held)) }
{
    push_head(out, setup, journal)?;
    push_entries(out, journal)?;
    push_audit(out, audit)
}

/// Appends the text of the report. If memory is refused, `out` is as before.
pub fn print_report(
    alloc: Global,
    setup: &Setup,
    journal: &Journal,
    audit: &Audit,
    out: &mut Vec<u8>,
) -> Result<(), OutOfMemory>
    ensures ok { OnOk result (out.new.items ≡ out.old.items
        ++ report_text setup.now journal.now.entries audit.now.made audit.now.cut
        (held_pairs audit.now.held)) }
    ensures err { OnErr result (out.new.items ≡ out.old.items) }
{
    let mut report = Vec::new(alloc);
    push_report(&mut report, setup, journal, audit)?;
    // If nothing comes before it, a long text needs no copy.
    if out.is_empty() {
        *out = report;
        return Ok(());
    }
    out.extend_from_slice(&report)
}
