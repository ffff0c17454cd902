// The lines of a report, each against its form and its canonical spelling.
ghost use Rattle.std.specs.Prelude.{◌≡◌, ◌≤◌, ◌⊎◌, [], ◌∷◌, codes, decimal, None, Some, IfOk};
ghost use Rattle.std.specs.Prelude.{IfErr, OnOk, if◌then◌else◌};
ghost use Rattle.std.specs.Result.{result_err};
ghost use Rattle.std.specs.Str.{bytes_eq};
ghost use Rattle.sem_text.specs.Lines.{line as line_spec};
ghost use Rattle.sem_trace.specs.TextLines.{words_of, bytes_fault as bytes_fault_spec};
ghost use Rattle.sem_trace.specs.Forms.{form_fault, word_fault};
ghost use Rattle.sem_trace.specs.Places.{told_fault};
ghost use Rattle.sem_trace.specs.Declarations.{number_at};
ghost use Rattle.sem_trace.specs.Refusal.{version_in};
ghost use Rattle.sem_trace.specs.declared.fault.Cause.TheVariants.{NotCanonical};
ghost use Rattle.sem_journal.specs.EntryForms.{entry_form};
ghost use Rattle.sem_journal.specs.EntryRanges.{EntryFits};
ghost use Rattle.sem_journal.specs.EntryText.{entry_words};
ghost use Rattle.sem_journal.specs.ReportText.{held_line as held_words_spec};
ghost use Rattle.sem_report.specs.WholeLines.{content as content_spec};
ghost use Rattle.sem_report.specs.ReportRefusal.{words_in, report_line_fault, report_form};
ghost use Rattle.sem_report.specs.ReportRefusal.{name_form, count_form, held_form};
ghost use Rattle.sem_report.specs.ReadsReport.{Because};
ghost use Rattle.sem_report.specs.ReportRanges.{HeldFits};

use crate::lines::{Line, same};
use crate::report::push_held;
use sem_journal::{push_entry, read_entry};
use sem_msg::{Entry, Held};
use sem_trace::{BYTE, Cause, LineError, LineFault, WORD, Words, bytes_fault, push_line};

// Checks that the line is short and is text.
fn is_text(line: &Line) -> Result<(), Cause>
    requires { line.now.content.now ≡ content_spec line.now.whole.now }
    ensures { bytes_fault_spec (content_spec line.now.whole.now) ≡ result_err result }
{
    match bytes_fault(line.content) {
        Some(cause) => Err(cause),
        None => Ok(()),
    }
}

// Checks that the line is spelled as it is printed.
fn is_canonical(line: &Line, printed: &[u8]) -> Result<(), Cause>
    ensures { (if bytes_eq line.now.whole.now printed.now then None else Some NotCanonical)
        ≡ result_err result }
{
    if same(line.whole, printed) {
        Ok(())
    } else {
        Err(Cause::NotCanonical)
    }
}

// Checks that the word is the only one.
#[tactic(auto, using(sem_journal::proofs::EntryParts::nothing_more))]
fn only_name(words: &mut Words<'_>, name: &[u8]) -> Result<(), Cause>
    ensures fault { form_fault (name_form name.now words.old) words.old
        ≡ told_fault result words.new }
    ensures printed { OnOk result (words.old ≡ name.now ∷ []) }
{
    words.fixed(name)?;
    words.no_more()
}

// Checks that the word is the only one of the line.
fn name_words(line: &[u8], name: &[u8]) -> Result<(), LineFault>
    ensures fault { word_fault (name_form name.now (words_of line.now)) (words_of line.now)
        ≡ result_err result }
    ensures printed { OnOk result (words_of line.now ≡ name.now ∷ []) }
{
    let mut words = Words::of(line);
    match only_name(&mut words, name) {
        Ok(()) => Ok(()),
        Err(cause) => Err(words.fault_in(line, cause)),
    }
}

// The number after the word.
#[tactic(auto, using(sem_journal::proofs::EntryParts::nothing_more))]
fn number_behind(words: &mut Words<'_>, name: &[u8]) -> Result<u64, Cause>
    ensures fault { form_fault (count_form name.now words.old) words.old
        ≡ told_fault result words.new }
    ensures printed { IfOk result (λ n. words.old ≡ name.now ∷ decimal n ∷ []) }
    ensures small { IfOk result (λ n. n ≤ 4294967295) }
{
    words.fixed(name)?;
    let number = words.number(WORD)?;
    words.no_more()?;
    Ok(number)
}

// The number after the word in the line.
fn count_words(line: &[u8], name: &[u8]) -> Result<u64, LineFault>
    ensures fault { word_fault (count_form name.now (words_of line.now)) (words_of line.now)
        ≡ result_err result }
    ensures printed { IfOk result (λ n. words_of line.now ≡ name.now ∷ decimal n ∷ []) }
    ensures small { IfOk result (λ n. n ≤ 4294967295) }
{
    let mut words = Words::of(line);
    match number_behind(&mut words, name) {
        Ok(number) => Ok(number),
        Err(cause) => Err(words.fault_in(line, cause)),
    }
}

// The held key and its selector, in a report of the version.
#[tactic(auto, using(sem_journal::proofs::EntryParts::nothing_more))]
fn held_key(words: &mut Words<'_>, version: u8) -> Result<Held, Cause>
    ensures fault { form_fault (held_form version words.old) words.old
        ≡ told_fault result words.new }
    ensures printed { IfOk result (λ held. words.old ≡ held_words_spec (held.key, held.sel)) }
    ensures fits { IfOk result (λ held. HeldFits version (held.key, held.sel)) }
{
    words.fixed(b"key")?;
    let key = words.key(version)?;
    let sel = words.number(BYTE)?;
    words.no_more()?;
    Ok(Held {
        key,
        sel: sel as u8,
    })
}

// The held key and its selector that the line tells, in a report of the version.
fn held_words(line: &[u8], version: u8) -> Result<Held, LineFault>
    ensures fault { word_fault (held_form version (words_of line.now)) (words_of line.now)
        ≡ result_err result }
    ensures printed { IfOk result
        (λ held. words_of line.now ≡ held_words_spec (held.key, held.sel)) }
    ensures fits { IfOk result (λ held. HeldFits version (held.key, held.sel)) }
{
    let mut words = Words::of(line);
    match held_key(&mut words, version) {
        Ok(held) => Ok(held),
        Err(cause) => Err(words.fault_in(line, cause)),
    }
}

/// Reads a line of one word. The old content of `printed` means nothing.
pub fn name_line(line: &Line, name: &[u8], printed: &mut Vec<u8>) -> Result<(), LineError>
    requires { line.now.content.now ≡ content_spec line.now.whole.now }
    ensures ok { OnOk result (report_line_fault (name_form name.now) line.now.whole.now ≡ None) }
    ensures err { IfErr result
        (Because (report_line_fault (name_form name.now) line.now.whole.now)) }
    ensures read { OnOk result (line.now.whole.now ≡ line_spec (name.now ∷ [])) }
{
    is_text(line)?;
    name_words(line.content, name)?;
    printed.clear();
    push_line(printed, name, &[])?;
    is_canonical(line, printed)?;
    Ok(())
}

/// Reads a line of a word and a number, at most 4294967295. The old content of `printed` means
/// nothing.
pub fn count_line(line: &Line, name: &[u8], printed: &mut Vec<u8>) -> Result<u64, LineError>
    requires { line.now.content.now ≡ content_spec line.now.whole.now }
    ensures ok { OnOk result (report_line_fault (count_form name.now) line.now.whole.now ≡ None) }
    ensures err { IfErr result
        (Because (report_line_fault (count_form name.now) line.now.whole.now)) }
    ensures read { IfOk result (λ n. line.now.whole.now ≡ line_spec (name.now ∷ decimal n ∷ [])) }
    ensures number { IfOk result (λ n. number_at (words_in line.now.whole.now) 1 ≡ n) }
    ensures small { IfOk result (λ n. n ≤ 4294967295) }
{
    is_text(line)?;
    let number = count_words(line.content, name)?;
    printed.clear();
    push_line(printed, name, &[number])?;
    is_canonical(line, printed)?;
    Ok(number)
}

/// Reads the line of a held key, in a report of the version. The old content of `printed` means
/// nothing.
pub fn held_line(line: &Line, version: u8, printed: &mut Vec<u8>) -> Result<Held, LineError>
    requires { line.now.content.now ≡ content_spec line.now.whole.now }
    ensures ok { OnOk result (report_line_fault (held_form version) line.now.whole.now ≡ None) }
    ensures err { IfErr result
        (Because (report_line_fault (held_form version) line.now.whole.now)) }
    ensures read { IfOk result
        (λ held. line.now.whole.now ≡ line_spec (held_words_spec (held.key, held.sel))) }
    ensures fits { IfOk result (λ held. HeldFits version (held.key, held.sel)) }
{
    is_text(line)?;
    let held = held_words(line.content, version)?;
    printed.clear();
    push_held(printed, &held)?;
    is_canonical(line, printed)?;
    Ok(held)
}

/// Reads the line of an entry, in a report of the version with that many kernels. The old content
/// of `printed` means nothing.
pub fn entry_line(
    line: &Line,
    version: u8,
    kernels: u32,
    printed: &mut Vec<u8>,
) -> Result<Entry, LineError>
    requires content { line.now.content.now ≡ content_spec line.now.whole.now }
    requires kernels { 1 ≤ kernels }
    ensures ok { OnOk result
        (report_line_fault (entry_form version kernels) line.now.whole.now ≡ None) }
    ensures err { IfErr result
        (Because (report_line_fault (entry_form version kernels) line.now.whole.now)) }
    ensures read { IfOk result (λ e. line.now.whole.now ≡ line_spec (entry_words e)) }
    ensures fits { IfOk result (EntryFits version kernels) }
{
    is_text(line)?;
    let entry = read_entry(line.content, version, kernels)?;
    printed.clear();
    push_entry(printed, &entry)?;
    is_canonical(line, printed)?;
    Ok(entry)
}

// The version that the words of the first line tell.
#[tactic(auto, using(sem_journal::proofs::EntryParts::nothing_more))]
fn report_version(words: &mut Words<'_>) -> Result<u8, Cause>
    ensures fault { form_fault (report_form words.old) words.old ≡ told_fault result words.new }
    ensures printed { IfOk result
        (λ v. words.old ≡ codes "semper" ∷ codes "report" ∷ decimal v ∷ []) }
    ensures versions { IfOk result (λ v. (v ≡ 1) ⊎ (v ≡ 2)) }
{
    words.fixed(b"semper")?;
    words.fixed(b"report")?;
    let version = words.version()?;
    words.no_more()?;
    Ok(version)
}

// The version that the first line tells.
fn header_words(line: &[u8]) -> Result<u8, LineFault>
    ensures fault { word_fault (report_form (words_of line.now)) (words_of line.now)
        ≡ result_err result }
    ensures printed { IfOk result
        (λ v. words_of line.now ≡ codes "semper" ∷ codes "report" ∷ decimal v ∷ []) }
    ensures versions { IfOk result (λ v. (v ≡ 1) ⊎ (v ≡ 2)) }
{
    let mut words = Words::of(line);
    match report_version(&mut words) {
        Ok(version) => Ok(version),
        Err(cause) => Err(words.fault_in(line, cause)),
    }
}

/// Reads the first line, which tells the version. The old content of `printed` means nothing.
pub fn header_line(line: &Line, printed: &mut Vec<u8>) -> Result<u8, LineError>
    requires { line.now.content.now ≡ content_spec line.now.whole.now }
    ensures ok { OnOk result (report_line_fault report_form line.now.whole.now ≡ None) }
    ensures err { IfErr result (Because (report_line_fault report_form line.now.whole.now)) }
    ensures read { IfOk result (λ v. line.now.whole.now
        ≡ line_spec (codes "semper" ∷ codes "report" ∷ decimal v ∷ [])) }
    ensures version { IfOk result (λ v. version_in (words_in line.now.whole.now) ≡ v) }
    ensures versions { IfOk result (λ v. (v ≡ 1) ⊎ (v ≡ 2)) }
{
    is_text(line)?;
    let version = header_words(line.content)?;
    printed.clear();
    push_line(printed, b"semper report", &[u64::from(version)])?;
    is_canonical(line, printed)?;
    Ok(version)
}
