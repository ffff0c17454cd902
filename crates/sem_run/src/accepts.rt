// A law of reports. The function does nothing: its promise holds for all texts.
ghost use Rattle.std.specs.Prelude.{◌≡◌, true, ℕ, List};
ghost use Rattle.sem_report.specs.declared.verdict.Verdict.{Verdict};
ghost use Rattle.sem_run.specs.Reports.{IsReport, IsVerdict, is_accepted, verdict_line};

/// Bytes are accepted exactly if they are the report of a complete schedule, and all verdicts on
/// the same bytes are told by the same line.
pub fn reports_are_accepted()
    ensures accepts { (bytes : List ℕ) (verdict : Verdict) → IsReport bytes
        → IsVerdict bytes verdict → is_accepted verdict ≡ true }
    ensures no_others { (bytes : List ℕ) (verdict : Verdict) → IsVerdict bytes verdict
        → is_accepted verdict ≡ true → IsReport bytes }
    ensures one_line { (bytes : List ℕ) (one other : Verdict) → IsVerdict bytes one
        → IsVerdict bytes other → verdict_line one ≡ verdict_line other }
{
    sem_report::reports_are_read();
    sem_report::one_report();
    sem_check::a_journal_has_one_verdict();
}
