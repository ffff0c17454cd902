// Questions about the report in the input.
ghost use Rattle.std.specs.Prelude.{◌≡◌, [], Some, OnOk};
ghost use Rattle.sem_machine.specs.Schedules.{IsSchedule};
ghost use Rattle.sem_cli.specs.declared.forms.Command.TheVariants.{Ask};
ghost use Rattle.sem_run.specs.Inputs.{input_given};
ghost use Rattle.sem_run.specs.Reports.{is_accepted as is_accepted_spec};
ghost use Rattle.sem_run.specs.Ends.{IsAnswer};
ghost use Rattle.sem_run.specs.Readings.{Responds, TellsAnswer, TellsVerdict};
ghost use Rattle.sem_run.specs.Findings.{question_about, IsFound, IsAskable};

use crate::findings::Finding;
use crate::judging::judge_watched;
use crate::response::Response;
use sem_cli::{Question, Status, ok, push_bad_line, push_differing, push_going_on};
use sem_io::{Source, read_all};
use sem_key::OutOfMemory;
use sem_mem::push_contents;
use sem_msg::{Journal, Setup};
use sem_query::{denied, path, push_whereabouts};
use sem_report::Verdict;
use sem_trace::{Cause, TraceFault};
use std::alloc::Global;

/// The most bytes of a report.
const REPORT_BYTES: usize = 134_217_728;

/// Checks the report in the input. The response answers the question if the report is accepted, and
/// otherwise is the line of its verdict.
pub fn answer<S: Source>(alloc: Global, question: Question, input: &mut S) -> Response
    ensures { Responds
        (input_given S.left S.faults (Some (Ask question)) input.old input.new) result }
{
    let bytes = match read_all(alloc, input, REPORT_BYTES) {
        Ok(bytes) => bytes,
        Err(error) => return Response::unread(alloc, error),
    };
    let mut finding = Finding::new(alloc, question);
    match judge_watched(alloc, bytes, &mut finding) {
        Ok(verdict) => tell_verdict(alloc, &finding, &verdict),
        Err(_) => Response::out_of_memory(alloc, Journal::new(alloc)),
    }
}

// The response that answers the question or tells the verdict.
fn tell_verdict(alloc: Global, finding: &Finding, verdict: &Verdict) -> Response
    requires { IsAskable finding.now verdict.now }
    ensures { TellsVerdict (question_about finding.now) verdict.now result }
{
    let mut text = Vec::new(alloc);
    match push_verdict(alloc, &mut text, finding, verdict) {
        Ok(()) if is_accepted(verdict) => Response::told(alloc, Status::Done, text),
        Ok(()) => Response::told(alloc, Status::ReportRefused, text),
        Err(_) => Response::out_of_memory(alloc, Journal::new(alloc)),
    }
}

// Whether the bytes are the report of a complete schedule.
fn is_accepted(verdict: &Verdict) -> bool
    ensures { result ≡ is_accepted_spec verdict.now }
{
    matches!(verdict, Verdict::Accepted { .. })
}

// Answers the question, or tells the verdict. If memory is refused, a part may be there.
fn push_verdict(
    alloc: Global,
    out: &mut Vec<u8>,
    finding: &Finding,
    verdict: &Verdict,
) -> Result<(), OutOfMemory>
    requires askable { IsAskable finding.now verdict.now }
    requires empty { out.old.items ≡ [] }
    ensures { OnOk result (TellsAnswer (question_about finding.now) verdict.now out.new.items) }
{
    match verdict {
        Verdict::Accepted { setup, journal, .. } => {
            push_answer(alloc, out, finding, setup, journal)
        }
        Verdict::BadLine { fault } => push_bad_line(out, fault),
        Verdict::BadEntry {
            entry,
            entered,
            replayed,
            ..
        } => push_differing(out, *entry, entered, replayed),
        Verdict::NotOver { journal, next } => push_going_on(out, journal.len() as u64, next),
        Verdict::BadAudit { line, .. } => {
            let fault = TraceFault {
                line: *line,
                word: None,
                cause: Cause::NotCanonical,
            };
            push_bad_line(out, &fault)
        }
    }
}

// Answers the question. If memory is refused, a part may be there.
fn push_answer(
    alloc: Global,
    out: &mut Vec<u8>,
    finding: &Finding,
    setup: &Setup,
    journal: &Journal,
) -> Result<(), OutOfMemory>
    requires schedule { IsSchedule setup.now journal.now.entries }
    requires found { IsFound setup.now journal.now.entries finding.now }
    requires empty { out.old.items ≡ [] }
    ensures { OnOk result
        (IsAnswer (question_about finding.now) setup.now journal.now.entries out.new.items) }
{
    setup.keeps_its_rules();
    match finding {
        Finding::Nothing => out.extend_from_slice(ok()),
        Finding::Accounted(account) => push_contents(out, account),
        Finding::Sighted(sighting) => push_whereabouts(alloc, sighting, journal, out),
        Finding::Line(key) => path(alloc, setup, journal, *key, out),
        Finding::Denial(entry) => denied(alloc, setup, journal, *entry, out),
    }
}
