// Reports, read line by line.
ghost use Rattle.std.specs.Prelude.{◌≡◌, ◌+◌, ◌≤◌, ◌⊎◌, [], ◌∷◌, ◌++◌, length, take, drop, map};
ghost use Rattle.std.specs.Prelude.{replicate, All, codes, decimal, None, IfOk, IfErr, OnOk};
ghost use Rattle.sem_text.specs.Lines.{line as line_spec, text};
ghost use Rattle.sem_trace.specs.SetupOfText.{IsWhy};
ghost use Rattle.sem_trace.specs.TraceText.{canonical};
ghost use Rattle.sem_msg.specs.Audits.{held_pairs};
ghost use Rattle.sem_journal.specs.EntryForms.{entry_form};
ghost use Rattle.sem_journal.specs.EntryRanges.{EntryFits};
ghost use Rattle.sem_journal.specs.EntryText.{entry_words};
ghost use Rattle.sem_journal.specs.ReportText.{held_line as held_words_spec, journal_lines};
ghost use Rattle.sem_journal.specs.ReportText.{audit_lines, report_text};
ghost use Rattle.sem_report.specs.WholeLines.{whole_lines, content as content_spec};
ghost use Rattle.sem_report.specs.ReportRefusal.{report_form, report_version, name_form};
ghost use Rattle.sem_report.specs.ReportRefusal.{count_form, held_form, audit_forms, count_at};
ghost use Rattle.sem_report.specs.ReportRefusal.{forms_fault, forms_behind};
ghost use Rattle.sem_report.specs.ReportRefusal.{trace_section, trace_refusal, setup_in};
ghost use Rattle.sem_report.specs.ReportRefusal.{report_refusal};
ghost use Rattle.sem_report.specs.ReadsReport.{HaveForms, StopsAt, NextLine, OneEntry, IsMissing};
ghost use Rattle.sem_report.specs.ReadsReport.{IsRefused, IsBelow, later};
ghost use Rattle.sem_report.specs.ReportRanges.{HeldFits, ReportFits};

use crate::lines::{Line, first_difference, next_whole_line, split_section};
use crate::report_lines::{count_line, entry_line, header_line, held_line, name_line};
use crate::trace_head::head_fault;
use sem_msg::{Audit, Entry, Held, HeldList, Journal, Setup};
use sem_reader::read_section;
use sem_trace::{Cause, TraceError, TraceFault, at_line, bytes_fault, push_trace, refused};
use std::alloc::Global;

/// The most bytes of a report.
const REPORT_BYTES: usize = 134217728;

// The unread lines of a report, how many were read, and what was printed for the last one.
#[derive(Drop)]
struct Lines<'a> {
    rest: &'a [u8],
    number: u64,
    printed: Vec<u8>,
}

// Why a report is not read, given why its trace is not: the trace begins one line later.
fn line_later(e: TraceError) -> TraceError
    requires { IsBelow 500000002 e }
    ensures { result ≡ later e }
{
    match e {
        TraceError::Refused(fault) => TraceError::Refused(TraceFault {
            line: fault.line + 1,
            ..fault
        }),
        TraceError::Memory => TraceError::Memory,
    }
}

impl<'a> Lines<'a> {
    fn next(&mut self) -> Result<Line<'a>, TraceError>
        requires { self.old.number + length self.old.rest.now ≤ 1000000000 }
        ensures ok { IfOk result (λ l. NextLine self.old.number self.old.rest.now l.whole.now
            self.new.number self.new.rest.now) }
        ensures err { IfErr result
            (IsMissing (self.old.number + 1) (whole_lines self.old.rest.now)) }
        ensures content { IfOk result (λ l. l.content.now ≡ content_spec l.whole.now) }
        ensures room { self.new.number + length self.new.rest.now ≤ 1000000000 }
    {
        match next_whole_line(self.rest) {
            Some((line, behind)) => {
                self.rest = behind;
                self.number += 1;
                Ok(line)
            }
            None => Err(refused(self.number + 1, Cause::Missing)),
        }
    }

    // Reads the first line, which tells the version.
    fn header(&mut self) -> Result<u8, TraceError>
        requires start { self.old.number ≡ 0 }
        requires room { length self.old.rest.now ≤ 999999999 }
        ensures ok { OnOk result
            (forms_fault 1 (report_form ∷ []) (take 1 (whole_lines self.old.rest.now)) ≡ None) }
        ensures err { IfErr result
            (IsWhy (forms_fault 1 (report_form ∷ []) (take 1 (whole_lines self.old.rest.now)))) }
        ensures read { IfOk result (λ v. self.old.rest.now
            ≡ line_spec (codes "semper" ∷ codes "report" ∷ decimal v ∷ []) ++ self.new.rest.now) }
        ensures version { IfOk result (λ v. report_version (whole_lines self.old.rest.now) ≡ v) }
        ensures versions { IfOk result (λ v. (v ≡ 1) ⊎ (v ≡ 2)) }
        ensures behind { OnOk result
            (whole_lines self.new.rest.now ≡ drop 1 (whole_lines self.old.rest.now)) }
        ensures number { OnOk result (self.new.number ≡ 1) }
    {
        let line = self.next()?;
        match header_line(&line, &mut self.printed) {
            Ok(version) => Ok(version),
            Err(e) => Err(at_line(self.number, e)),
        }
    }

    // Reads a line of one word.
    fn name(&mut self, name: &[u8]) -> Result<(), TraceError>
        requires room { self.old.number + length self.old.rest.now ≤ 1000000000 }
        ensures ok { OnOk result (HaveForms (name_form name.now ∷ []) (self.old.number + 1)
            (whole_lines self.old.rest.now) (self.new.number + 1)
            (whole_lines self.new.rest.now)) }
        ensures err { IfErr result (StopsAt (name_form name.now ∷ []) (self.old.number + 1)
            (whole_lines self.old.rest.now)) }
        ensures read { OnOk result
            (self.old.rest.now ≡ line_spec (name.now ∷ []) ++ self.new.rest.now) }
        ensures behind { OnOk result
            (whole_lines self.new.rest.now ≡ drop 1 (whole_lines self.old.rest.now)) }
        ensures room { self.new.number + length self.new.rest.now ≤ 1000000000 }
    {
        let line = self.next()?;
        match name_line(&line, name, &mut self.printed) {
            Ok(()) => Ok(()),
            Err(e) => Err(at_line(self.number, e)),
        }
    }

    // Reads a line of a word and a number.
    fn count(&mut self, name: &[u8]) -> Result<u64, TraceError>
        requires room { self.old.number + length self.old.rest.now ≤ 1000000000 }
        ensures ok { OnOk result (HaveForms (count_form name.now ∷ []) (self.old.number + 1)
            (whole_lines self.old.rest.now) (self.new.number + 1)
            (whole_lines self.new.rest.now)) }
        ensures err { IfErr result (StopsAt (count_form name.now ∷ []) (self.old.number + 1)
            (whole_lines self.old.rest.now)) }
        ensures read { IfOk result
            (λ n. self.old.rest.now ≡ line_spec (name.now ∷ decimal n ∷ []) ++ self.new.rest.now) }
        ensures behind { OnOk result
            (whole_lines self.new.rest.now ≡ drop 1 (whole_lines self.old.rest.now)) }
        ensures room { self.new.number + length self.new.rest.now ≤ 1000000000 }
        ensures small { IfOk result (λ n. n ≤ 4294967295) }
        ensures count { IfOk result (λ n. count_at (whole_lines self.old.rest.now) 0 ≡ n) }
    {
        let line = self.next()?;
        match count_line(&line, name, &mut self.printed) {
            Ok(number) => Ok(number),
            Err(e) => Err(at_line(self.number, e)),
        }
    }

    // Reads the line of a held key.
    fn held(&mut self, version: u8) -> Result<Held, TraceError>
        requires room { self.old.number + length self.old.rest.now ≤ 1000000000 }
        ensures ok { OnOk result (HaveForms (held_form version ∷ []) (self.old.number + 1)
            (whole_lines self.old.rest.now) (self.new.number + 1)
            (whole_lines self.new.rest.now)) }
        ensures err { IfErr result (StopsAt (held_form version ∷ []) (self.old.number + 1)
            (whole_lines self.old.rest.now)) }
        ensures read { IfOk result (λ held. self.old.rest.now
            ≡ line_spec (held_words_spec (held.key, held.sel)) ++ self.new.rest.now) }
        ensures fits { IfOk result (λ held. HeldFits version (held.key, held.sel)) }
        ensures room { self.new.number + length self.new.rest.now ≤ 1000000000 }
    {
        let line = self.next()?;
        match held_line(&line, version, &mut self.printed) {
            Ok(held) => Ok(held),
            Err(e) => Err(at_line(self.number, e)),
        }
    }

    fn entry(&mut self, version: u8, kernels: u32) -> Result<Entry, TraceError>
        requires room { self.old.number + length self.old.rest.now ≤ 1000000000 }
        requires kernels { 1 ≤ kernels }
        ensures ok { OnOk result (HaveForms (entry_form version kernels ∷ []) (self.old.number + 1)
            (whole_lines self.old.rest.now) (self.new.number + 1)
            (whole_lines self.new.rest.now)) }
        ensures err { IfErr result (StopsAt (entry_form version kernels ∷ []) (self.old.number + 1)
            (whole_lines self.old.rest.now)) }
        ensures read { IfOk result
            (λ e. self.old.rest.now ≡ line_spec (entry_words e) ++ self.new.rest.now) }
        ensures behind { OnOk result
            (whole_lines self.new.rest.now ≡ drop 1 (whole_lines self.old.rest.now)) }
        ensures room { self.new.number + length self.new.rest.now ≤ 1000000000 }
        ensures fits { IfOk result (EntryFits version kernels) }
    {
        let line = self.next()?;
        match entry_line(&line, version, kernels, &mut self.printed) {
            Ok(entry) => Ok(entry),
            Err(e) => Err(at_line(self.number, e)),
        }
    }

    // Reads the line of an entry, and appends the entry.
    fn append_entry(
        &mut self,
        version: u8,
        kernels: u32,
        journal: &mut Journal,
    ) -> Result<(), TraceError>
        requires room { self.old.number + length self.old.rest.now ≤ 1000000000 }
        requires kernels { 1 ≤ kernels }
        ensures ok { OnOk result (HaveForms (entry_form version kernels ∷ []) (self.old.number + 1)
            (whole_lines self.old.rest.now) (self.new.number + 1)
            (whole_lines self.new.rest.now)) }
        ensures err { IfErr result (StopsAt (entry_form version kernels ∷ []) (self.old.number + 1)
            (whole_lines self.old.rest.now)) }
        ensures read { OnOk result (OneEntry version kernels self.old.rest.now self.new.rest.now
            journal.old.entries journal.new.entries) }
        ensures behind { OnOk result
            (whole_lines self.new.rest.now ≡ drop 1 (whole_lines self.old.rest.now)) }
        ensures room { self.new.number + length self.new.rest.now ≤ 1000000000 }
    {
        if journal.room(1).is_err() {
            return Err(TraceError::Memory);
        }
        match self.entry(version, kernels) {
            Ok(entry) => {
                journal.push(entry);
                Ok(())
            }
            Err(e) => Err(e),
        }
    }

    // Reads the lines of that many entries.
    fn entries(
        &mut self,
        alloc: Global,
        number: u64,
        version: u8,
        kernels: u32,
    ) -> Result<Journal, TraceError>
        requires room { self.old.number + length self.old.rest.now ≤ 1000000000 }
        requires kernels { 1 ≤ kernels }
        ensures ok { OnOk result (HaveForms (replicate number (entry_form version kernels))
            (self.old.number + 1) (whole_lines self.old.rest.now) (self.new.number + 1)
            (whole_lines self.new.rest.now)) }
        ensures err { IfErr result (StopsAt (replicate number (entry_form version kernels))
            (self.old.number + 1) (whole_lines self.old.rest.now)) }
        ensures read { IfOk result
            (λ j. self.old.rest.now ≡ text (map entry_words j.entries) ++ self.new.rest.now) }
        ensures count { IfOk result (λ j. length j.entries ≡ number) }
        ensures fits { IfOk result (λ j. All (EntryFits version kernels) j.entries) }
        ensures behind { OnOk result
            (whole_lines self.new.rest.now ≡ drop number (whole_lines self.old.rest.now)) }
        ensures room { self.new.number + length self.new.rest.now ≤ 1000000000 }
    {
        let mut journal = Journal::new(alloc);
        for _ in 0..number {
            self.append_entry(version, kernels, &mut journal)?;
        }
        Ok(journal)
    }

    // Reads the lines of that many held keys.
    fn held_keys(&mut self, alloc: Global, number: u64, version: u8) -> Result<HeldList, TraceError>
        requires { self.old.number + length self.old.rest.now ≤ 1000000000 }
        ensures ok { OnOk result (HaveForms (replicate number (held_form version))
            (self.old.number + 1) (whole_lines self.old.rest.now) (self.new.number + 1)
            (whole_lines self.new.rest.now)) }
        ensures err { IfErr result (StopsAt (replicate number (held_form version))
            (self.old.number + 1) (whole_lines self.old.rest.now)) }
        ensures read { IfOk result (λ held. self.old.rest.now
            ≡ text (map held_words_spec (held_pairs held)) ++ self.new.rest.now) }
        ensures count { IfOk result (λ held. length held ≡ number) }
        ensures fits { IfOk result (λ held. All (HeldFits version) (held_pairs held)) }
        ensures room { self.new.number + length self.new.rest.now ≤ 1000000000 }
    {
        let mut keys = HeldList::new(alloc);
        for _ in 0..number {
            let held = self.held(version)?;
            match keys.push(held) {
                Ok(()) => {}
                Err(_) => return Err(TraceError::Memory),
            }
        }
        Ok(keys)
    }

    // Reads the lines of the audit, with the last line.
    fn audit(&mut self, alloc: Global, version: u8) -> Result<Audit, TraceError>
        requires { self.old.number + length self.old.rest.now ≤ 1000000000 }
        ensures ok { OnOk result
            (HaveForms (audit_forms version (count_at (whole_lines self.old.rest.now) 3))
            (self.old.number + 1) (whole_lines self.old.rest.now) (self.new.number + 1)
            (whole_lines self.new.rest.now)) }
        ensures err { IfErr result
            (StopsAt (audit_forms version (count_at (whole_lines self.old.rest.now) 3))
            (self.old.number + 1) (whole_lines self.old.rest.now)) }
        ensures read { IfOk result (λ a. self.old.rest.now
            ≡ text (audit_lines a.made a.cut (held_pairs a.held)) ++ self.new.rest.now) }
        ensures made { IfOk result (λ a. a.made ≤ 4294967295) }
        ensures cut { IfOk result (λ a. a.cut ≤ 4294967295) }
        ensures held { IfOk result (λ a. length a.held ≤ 4294967295) }
        ensures keys { IfOk result (λ a. All (HeldFits version) (held_pairs a.held)) }
        ensures room { self.new.number + length self.new.rest.now ≤ 1000000000 }
    {
        self.name(b"audit")?;
        let made = self.count(b"made")?;
        let cut = self.count(b"cut")?;
        let number = self.count(b"held")?;
        let held = self.held_keys(alloc, number, version)?;
        self.name(b"end")?;
        Ok(Audit { made, cut, held })
    }

    // Checks that no line is left.
    fn finish(&self) -> Result<(), TraceError>
        requires { self.now.number + length self.now.rest.now ≤ 1000000000 }
        ensures ok { OnOk result
            (forms_fault (self.now.number + 1) [] (whole_lines self.now.rest.now) ≡ None) }
        ensures err { IfErr result
            (IsRefused (forms_fault (self.now.number + 1) [] (whole_lines self.now.rest.now))) }
        ensures nothing { OnOk result (self.now.rest.now ≡ []) }
    {
        match next_whole_line(self.rest) {
            None => Ok(()),
            Some((line, _)) => {
                let cause = bytes_fault(line.content).unwrap_or(Cause::TooMany);
                Err(refused(self.number + 1, cause))
            }
        }
    }

    // Reads the lines of the trace, which follow the first line and have its version.
    fn trace(&mut self, alloc: Global, version: u8) -> Result<Setup, TraceError>
        requires version { (version ≡ 1) ⊎ (version ≡ 2) }
        requires start { self.old.number ≡ 1 }
        requires room { length self.old.rest.now ≤ 500000000 }
        ensures ok { OnOk result
            (trace_refusal version (trace_section (whole_lines self.old.rest.now)) ≡ None) }
        ensures err { IfErr result
            (IsWhy (trace_refusal version (trace_section (whole_lines self.old.rest.now)))) }
        ensures declared { IfOk result
            (λ T. T ≡ setup_in (trace_section (whole_lines self.old.rest.now))) }
        ensures version { IfOk result (λ T. T.version ≡ version) }
        ensures read { IfOk result (λ T. self.old.rest.now ≡ canonical T ++ self.new.rest.now) }
        ensures behind { OnOk result (whole_lines self.new.rest.now
            ≡ drop (length (trace_section (whole_lines self.old.rest.now)))
            (whole_lines self.old.rest.now)) }
        ensures number { OnOk result
            (self.new.number ≡ 1 + length (trace_section (whole_lines self.old.rest.now))) }
        ensures room { OnOk result (self.new.number + length self.new.rest.now ≤ 1000000000) }
    {
        let (section, behind, number) = split_section(self.rest);
        if let Some(fault) = head_fault(section, version, 2) {
            return Err(TraceError::Refused(fault));
        }
        let setup = match read_section(alloc, section) {
            Ok(setup) => setup,
            Err(e) => return Err(line_later(e)),
        };
        self.printed.clear();
        match push_trace(&mut self.printed, &setup) {
            Ok(()) => {}
            Err(_) => return Err(TraceError::Memory),
        }
        if let Some(line) = first_difference(section, &self.printed, 2) {
            return Err(refused(line, Cause::NotCanonical));
        }
        self.rest = behind;
        self.number += number;
        Ok(setup)
    }

    // Reads the lines after the trace, up to the last one.
    fn behind(
        &mut self,
        alloc: Global,
        version: u8,
        kernels: u32,
    ) -> Result<(Journal, Audit), TraceError>
        requires room { self.old.number + length self.old.rest.now ≤ 1000000000 }
        requires kernels { 1 ≤ kernels }
        ensures ok { OnOk result
            (HaveForms (forms_behind version kernels (whole_lines self.old.rest.now))
            (self.old.number + 1) (whole_lines self.old.rest.now) (self.new.number + 1)
            (whole_lines self.new.rest.now)) }
        ensures err { IfErr result
            (StopsAt (forms_behind version kernels (whole_lines self.old.rest.now))
            (self.old.number + 1) (whole_lines self.old.rest.now)) }
        ensures read { IfOk result (λ p. self.old.rest.now ≡ text (journal_lines p.0.entries)
            ++ text (audit_lines p.1.made p.1.cut (held_pairs p.1.held)) ++ self.new.rest.now) }
        ensures fits { IfOk result (λ p. All (EntryFits version kernels) p.0.entries) }
        ensures entries { IfOk result (λ p. length p.0.entries ≤ 4294967295) }
        ensures made { IfOk result (λ p. p.1.made ≤ 4294967295) }
        ensures cut { IfOk result (λ p. p.1.cut ≤ 4294967295) }
        ensures held { IfOk result (λ p. length p.1.held ≤ 4294967295) }
        ensures keys { IfOk result (λ p. All (HeldFits version) (held_pairs p.1.held)) }
        ensures room { self.new.number + length self.new.rest.now ≤ 1000000000 }
    {
        let number = self.count(b"journal")?;
        let journal = self.entries(alloc, number, version, kernels)?;
        let audit = self.audit(alloc, version)?;
        Ok((journal, audit))
    }
}

/// The setup, the journal and the audit that the text of a report tells. The text is refused at its
/// first bad line. Only the text is tested: not whether the entries are those of a run, nor whether
/// the audit is theirs.
pub fn read_report(alloc: Global, bytes: &[u8]) -> Result<(Setup, Journal, Audit), TraceError>
    // If the text is read, it tells the result: the result is printed so.
    ensures read { IfOk result
        (λ r. bytes.now ≡ report_text r.0 r.1.entries r.2.made r.2.cut (held_pairs r.2.held)) }
    // Then the text is not refused.
    ensures accepted { OnOk result (report_refusal bytes.now ≡ None) }
    // If it is refused, this is its refusal.
    ensures refused { IfErr result (IsWhy (report_refusal bytes.now)) }
    // What the text tells is in its ranges.
    ensures fits { IfOk result
        (λ r. ReportFits r.0 r.1.entries r.2.made r.2.cut (held_pairs r.2.held)) }
{
    if bytes.len() > REPORT_BYTES {
        return Err(refused(0, Cause::InputTooLong));
    }
    let mut lines = Lines {
        rest: bytes,
        number: 0,
        printed: Vec::new(alloc),
    };
    let version = lines.header()?;
    let setup = lines.trace(alloc, version)?;
    let (journal, audit) = lines.behind(alloc, version, setup.kernels)?;
    lines.finish()?;
    Ok((setup, journal, audit))
}
