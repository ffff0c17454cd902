// The first line of the trace in a report, which tells the version of the report.
ghost use Rattle.std.specs.Prelude.{◌≡◌, ◌+◌, ◌≤◌, ◌⊎◌, length, map, decimal};
ghost use Rattle.std.specs.Result.{result_err};
ghost use Rattle.sem_trace.specs.TextLines.{words_of};
ghost use Rattle.sem_trace.specs.Forms.{form_fault, word_fault};
ghost use Rattle.sem_trace.specs.Places.{told_fault};
ghost use Rattle.sem_report.specs.WholeLines.{whole_lines, content};
ghost use Rattle.sem_report.specs.ReportRefusal.{trace_form, head_fault as head_fault_spec};

use crate::lines::next_whole_line;
use sem_trace::{Cause, LineFault, TraceFault, Words, bytes_fault, is_significant};

fn version_word(version: u8) -> &'static [u8]
    requires { (version ≡ 1) ⊎ (version ≡ 2) }
    ensures { result.now ≡ decimal version }
{
    if version == 1 { b"1" } else { b"2" }
}

// Checks that the words are those of the first line of a trace of the version.
fn first_words(words: &mut Words<'_>, version: u8) -> Result<(), Cause>
    requires { (version ≡ 1) ⊎ (version ≡ 2) }
    ensures { form_fault (trace_form version) words.old ≡ told_fault result words.new }
{
    words.fixed(b"semper")?;
    words.fixed(b"trace")?;
    words.fixed(version_word(version))?;
    words.no_more()
}

// Checks that the line is the first of a trace of the version.
fn is_first(line: &[u8], version: u8) -> Result<(), LineFault>
    requires { (version ≡ 1) ⊎ (version ≡ 2) }
    ensures { word_fault (trace_form version) (words_of line.now) ≡ result_err result }
{
    let mut words = Words::of(line);
    match first_words(&mut words, version) {
        Ok(()) => Ok(()),
        Err(cause) => Err(words.fault_in(line, cause)),
    }
}

/// What is wrong with the first line of a trace of the version, or with an earlier line, which says
/// nothing. The first line of the section has that number. Takes no memory.
pub fn head_fault(section: &[u8], version: u8, first: u64) -> Option<TraceFault>
    requires version { (version ≡ 1) ⊎ (version ≡ 2) }
    requires room { first + length section.now ≤ 1000000000 }
    ensures { result ≡ head_fault_spec version first (map content (whole_lines section.now)) }
{
    let mut rest = section;
    let mut number = first;
    while let Some((line, behind)) = next_whole_line(rest) {
        if let Some(cause) = bytes_fault(line.content) {
            return Some(TraceFault {
                line: number,
                word: None,
                cause,
            });
        }
        if is_significant(line.content) {
            return match is_first(line.content, version) {
                Ok(()) => None,
                Err(fault) => Some(TraceFault {
                    line: number,
                    word: fault.word,
                    cause: fault.cause,
                }),
            };
        }
        rest = behind;
        number += 1;
    }
    None
}
