// The verdict on a text that should be the report of a complete schedule.
ghost use Rattle.std.specs.Prelude.{◌≡◌, ◌≤◌, length, IfOk, IfErr, OnOk};
ghost use Rattle.sem_machine.specs.Living.{IsComplete};
ghost use Rattle.sem_check.specs.Verdicts.{TellsDifference, TellsNext};
ghost use Rattle.sem_trace.specs.SetupOfText.{IsWhy};
ghost use Rattle.sem_report.specs.Audited.{audited, AuditFits, first_wrong_line};
ghost use Rattle.sem_report.specs.ReportRefusal.{report_refusal};
ghost use Rattle.sem_audit.specs.Reported.{IsAuditOf};
ghost use Rattle.sem_run.specs.Reports.{IsVerdict};
ghost use Rattle.sem_run.specs.Readings.{TellsAudit};
ghost use Rattle.sem_run.specs.Findings.{IfAccepted, IsOf};

use sem_audit::audit_of;
use sem_check::{CheckError, Noting, Unwatched, Watch, check_watched};
use sem_key::OutOfMemory;
use sem_msg::{Audit, Journal, Setup};
use sem_report::{Verdict, audit_difference, print_report, read_report, same_audit};
use sem_trace::TraceError;
use std::alloc::Global;

/// Whether the bytes are the report of a complete schedule, otherwise the first thing wrong with
/// them. They must be at most one more than a report may have.
pub fn judge(alloc: Global, bytes: &[u8]) -> Result<Verdict, OutOfMemory>
    requires { length bytes.now ≤ 134217729 }
    ensures { IfOk result (IsVerdict bytes.now) }
{
    match read_report(alloc, bytes) {
        Ok((setup, journal, told)) => judge_told(
            alloc,
            setup,
            journal,
            &told,
            &mut Noting(Unwatched),
        ),
        Err(TraceError::Refused(fault)) => Ok(Verdict::BadLine { fault }),
        Err(TraceError::Memory) => Err(OutOfMemory),
    }
}

/// The same, while `watch` sees every world on the way. The memory of the bytes is free again
/// before the replay.
pub fn judge_watched<W: Watch>(
    alloc: Global,
    bytes: Vec<u8>,
    watch: &mut W,
) -> Result<Verdict, OutOfMemory>
    requires few { length bytes.items ≤ 134217729 }
    requires new { W.is_new watch.old }
    ensures verdict { IfOk result (IsVerdict bytes.items) }
    ensures gathered { IfOk result (IfAccepted (λ T J. W.gathers T J watch.new)) }
    ensures same { W.subject watch.new ≡ W.subject watch.old }
{
    match read_taken(alloc, bytes) {
        Ok((setup, journal, told)) => judge_told(alloc, setup, journal, &told, watch),
        Err(TraceError::Refused(fault)) => Ok(Verdict::BadLine { fault }),
        Err(TraceError::Memory) => Err(OutOfMemory),
    }
}

// What the bytes tell, as `read_report`. They are dropped here.
fn read_taken(alloc: Global, bytes: Vec<u8>) -> Result<(Setup, Journal, Audit), TraceError>
    ensures spelled { IfOk result (λ r. bytes.items ≡ audited r.0 r.1.entries r.2) }
    ensures told { IfOk result (λ r. TellsAudit bytes.items r.0 r.1.entries r.2) }
    ensures refused { IfErr result (IsWhy (report_refusal bytes.items)) }
{
    read_report(alloc, &bytes)
}

// The verdict on the text that tells this setup, journal and audit.
fn judge_told<W: Watch>(
    alloc: Global,
    setup: Setup,
    journal: Journal,
    told: &Audit,
    watch: &mut W,
) -> Result<Verdict, OutOfMemory>
    requires few { length (audited setup journal.entries told.now) ≤ 134217729 }
    requires told { TellsAudit (audited setup journal.entries told.now)
        setup journal.entries told.now }
    requires new { W.is_new watch.old }
    ensures verdict { IfOk result (IsVerdict (audited setup journal.entries told.now)) }
    ensures gathered { IfOk result (IfAccepted (λ T J. W.gathers T J watch.new)) }
    ensures same { W.subject watch.new ≡ W.subject watch.old }
{
    match audit_complete(alloc, &setup, &journal, watch) {
        Ok(due) => judge_audit(alloc, setup, journal, told, due),
        Err(
            CheckError::Differs {
                entry,
                entered,
                replayed,
            },
        ) => Ok(Verdict::BadEntry {
            journal,
            entry,
            entered,
            replayed,
        }),
        Err(CheckError::Incomplete { next, .. }) => Ok(Verdict::NotOver { journal, next }),
        Err(CheckError::Memory) => Err(OutOfMemory),
    }
}

// The audit of a journal that is a complete schedule of the setup, otherwise what is wrong with it.
// The world of the replay is dropped before anything is told, so that its memory is free again.
fn audit_complete<W: Watch>(
    alloc: Global,
    setup: &Setup,
    journal: &Journal,
    watch: &mut W,
) -> Result<Audit, CheckError>
    requires { W.is_new watch.old }
    ensures complete { IfOk result (λ due. IsComplete setup.now journal.now.entries) }
    ensures audit { IfOk result (IsAuditOf setup.now journal.now.entries) }
    ensures gathered { OnOk result (W.gathers setup.now journal.now.entries watch.new) }
    ensures same { W.subject watch.new ≡ W.subject watch.old }
    ensures differs { TellsDifference setup.now journal.now.entries result }
    ensures incomplete { TellsNext setup.now journal.now.entries result }
{
    match check_watched(alloc, setup, journal, watch) {
        Ok(world) => match audit_of(alloc, setup, journal, world.kernels()) {
            Ok(audit) => Ok(audit),
            Err(OutOfMemory) => Err(CheckError::Memory),
        },
        Err(error) => Err(error),
    }
}

// The verdict on the text that tells this journal, a complete schedule, with one audit, while
// another may be due. Where they differ, the text is printed again to find the line.
fn judge_audit(
    alloc: Global,
    setup: Setup,
    journal: Journal,
    told: &Audit,
    due: Audit,
) -> Result<Verdict, OutOfMemory>
    requires few { length (audited setup journal.entries told.now) ≤ 134217729 }
    requires told { TellsAudit (audited setup journal.entries told.now)
        setup journal.entries told.now }
    requires complete { IsComplete setup journal.entries }
    requires due { IsAuditOf setup journal.entries due }
    ensures verdict { IfOk result (IsVerdict (audited setup journal.entries told.now)) }
    ensures of { IfOk result (IsOf setup journal.entries) }
{
    if same_audit(told, &due) {
        return Ok(Verdict::Accepted {
            setup,
            journal,
            audit: due,
        });
    }
    match other_line(alloc, &setup, &journal, told, &due)? {
        None => Ok(Verdict::Accepted {
            setup,
            journal,
            audit: due,
        }),
        Some(line) => Ok(Verdict::BadAudit { line, due }),
    }
}

// The first line in which the text that tells one audit differs from the one that tells another.
fn other_line(
    alloc: Global,
    setup: &Setup,
    journal: &Journal,
    told: &Audit,
    due: &Audit,
) -> Result<Option<u64>, OutOfMemory>
    requires few { length (audited setup.now journal.now.entries told.now) ≤ 134217729 }
    requires told { AuditFits setup.now journal.now.entries told.now }
    requires due { AuditFits setup.now journal.now.entries due.now }
    ensures { IfOk result (λ line. line ≡ first_wrong_line
        (audited setup.now journal.now.entries told.now) setup.now journal.now.entries due.now) }
{
    let mut text = Vec::new(alloc);
    print_report(alloc, setup, journal, told, &mut text)?;
    Ok(audit_difference(&text, told, due))
}
