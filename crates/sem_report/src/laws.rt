// Laws of whole reports. The functions do nothing: their promises hold for all reports.
ghost use Rattle.std.specs.Prelude.{◌≡◌, ℕ, ◌≤◌, List, length, None};
ghost use Rattle.sem_key.specs.KeyName.{KeyName};
ghost use Rattle.sem_msg.specs.declared.entry.Entry.{Entry};
ghost use Rattle.sem_msg.specs.Setup.{Setup as SetupRecord};
ghost use Rattle.sem_journal.specs.ReportText.{report_text};
ghost use Rattle.sem_report.specs.ReportRefusal.{report_refusal};
ghost use Rattle.sem_report.specs.ReportRanges.{ReportFits};

/// The text printed for a report is not refused, if it has at most 134217728 bytes.
pub fn reports_are_read()
    ensures { (T : SetupRecord) (J : List Entry) (made cut : ℕ) (held : List (KeyName × ℕ))
        → ReportFits T J made cut held → length (report_text T J made cut held) ≤ 134217728
        → report_refusal (report_text T J made cut held) ≡ None }
{
    sem_reader::canonical_stands();
}

/// The text printed for a report tells only that report: its setup, its journal and its audit.
pub fn one_report()
    ensures { (T U : SetupRecord) (J K : List Entry) (made cut made' cut' : ℕ)
        (held held' : List (KeyName × ℕ)) → ReportFits T J made cut held
        → ReportFits U K made' cut' held'
        → report_text T J made cut held ≡ report_text U K made' cut' held' → (T ≡ U) × (J ≡ K)
        × (made ≡ made') × (cut ≡ cut') × (held ≡ held') }
{
    sem_reader::canonical_stands();
}
