// A law of all texts. The function does nothing: its promise holds for every list of bytes.
ghost use Rattle.std.specs.Prelude.{◌≡◌, ℕ, List, None};
ghost use Rattle.sem_report.specs.ReportRefusal.{report_refusal};
ghost use Rattle.sem_readable.specs.ReportOf.{IsReportText};

/// A text that is not refused as a report is the text of a report with all parts in their ranges.
pub fn accepted_texts_are_reports()
    ensures { (bytes : List ℕ) → report_refusal bytes ≡ None → IsReportText bytes }
{}
