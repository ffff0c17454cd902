// Comparing audits.
ghost use Rattle.std.specs.Prelude.{◌≡◌, ◌↔◌, ◌-◌, ◌≤◌, List, length, IsTrue, MatchOption};
ghost use Rattle.sem_msg.specs.declared.entry.Entry.{Entry as EntryData};
ghost use Rattle.sem_msg.specs.Setup.{Setup as SetupRecord};
ghost use Rattle.sem_report.specs.WholeLines.{whole_lines};
ghost use Rattle.sem_report.specs.Audited.{audited, AuditFits, first_wrong_line, DifferFirst};

use crate::lines::next_whole_line;
use sem_msg::{Audit, Held};

/// Whether the audits are the same.
pub fn same_audit(told: &Audit, due: &Audit) -> bool
    ensures { IsTrue result ↔ (told.now ≡ due.now) }
{
    if told.made != due.made || told.cut != due.cut || told.held.len() != due.held.len() {
        return false;
    }
    match first_other(told.held.as_slice(), due.held.as_slice()) {
        None => true,
        Some(_) => false,
    }
}

/// The number of the first line in which the report's audit differs from the due one. The text must
/// be the report with the told audit. Takes no memory.
pub fn audit_difference(bytes: &[u8], told: &Audit, due: &Audit) -> Option<u64>
    requires few { length bytes.now ≤ 1000000000 }
    ensures { (T : SetupRecord) (J : List EntryData) → bytes.now ≡ audited T J told.now
        → AuditFits T J told.now → AuditFits T J due.now
        → result ≡ first_wrong_line bytes.now T J due.now }
{
    if told.made != due.made {
        return Some(made_line(bytes, told));
    }
    if told.cut != due.cut {
        return Some(made_line(bytes, told) + 1);
    }
    if told.held.len() != due.held.len() {
        return Some(made_line(bytes, told) + 2);
    }
    match first_other(told.held.as_slice(), due.held.as_slice()) {
        Some(key) => Some(made_line(bytes, told) + 3 + key as u64),
        None => None,
    }
}

// The number of the line that tells how many keys were made, in the report with that audit. After
// it come two more counts, one line for each key, and the last line.
fn made_line(bytes: &[u8], told: &Audit) -> u64
    requires few { length bytes.now ≤ 1000000000 }
    ensures line { result ≡ length (whole_lines bytes.now) - length told.now.held - 3 }
    ensures few { result ≤ 1000000000 }
{
    line_count(bytes)
        .saturating_sub(told.held.len() as u64)
        .saturating_sub(3)
}

// How many lines the text has.
fn line_count(bytes: &[u8]) -> u64
    requires few { length bytes.now ≤ 1000000000 }
    ensures count { result ≡ length (whole_lines bytes.now) }
    ensures few { result ≤ 1000000000 }
{
    let mut rest = bytes;
    let mut count = 0;
    while let Some((_, behind)) = next_whole_line(rest) {
        rest = behind;
        count += 1;
    }
    count
}

// The first place at which the lists, which have the same length, differ.
fn first_other(told: &[Held], due: &[Held]) -> Option<usize>
    requires { length told.now ≡ length due.now }
    ensures { MatchOption result (told.now ≡ due.now) (DifferFirst told.now due.now) }
{
    for at in 0..told.len() {
        if told[at] != due[at] {
            return Some(at);
        }
    }
    None
}
