// Laws of schedules. The functions do nothing: their promises hold for every schedule of every
// setup.
ghost use Rattle.std.specs.Prelude.{◌≡◌, ℕ, ◌≤◌, false, length};
ghost use Rattle.std.specs.List.{All};
ghost use Rattle.sem_msg.specs.declared.message.Message.{Message};
ghost use Rattle.sem_msg.specs.declared.entry.Detail.TheVariants.{Carried};
ghost use Rattle.sem_journal.specs.EntryRanges.{MessageFits, EntryFits};
ghost use Rattle.sem_journal.specs.ShownWords.{carries_long};
ghost use Rattle.sem_journal.specs.ReportText.{report_text};
ghost use Rattle.sem_trace.specs.Ranges.{IsKeyInText};
ghost use Rattle.sem_machine.specs.Schedules.{Always, world_after};
ghost use Rattle.sem_machine.specs.Living.{InFlight};
ghost use Rattle.sem_machine.specs.Journals.{made, cut};
ghost use Rattle.sem_machine.specs.HeldKeys.{held_after};

/// A report of the setup's version can tell each message under way after a schedule, and none of
/// these messages carries memory that ends too far.
pub fn messages_fit()
    ensures ranges { Always (λ T J. (m : Message) → InFlight (world_after T J) m →
        MessageFits T.version m) }
    ensures memory { Always (λ T J. (m : Message) → InFlight (world_after T J) m → (peer : ℕ) →
        carries_long (Carried peer m) ≡ false) }
{}

/// A report of the setup's version can tell each entry of a schedule.
pub fn entries_fit()
    ensures { Always (λ T J. All (EntryFits T.version T.kernels) J) }
{}

/// The report of a schedule can be told: its counts and held keys are in range, and it has no more
/// bytes than are read.
pub fn reports_fit()
    ensures few_entries { Always (λ T J. length J ≤ 4294967295) }
    ensures few_made { Always (λ T J. length (made T J) ≤ 4294967295) }
    ensures few_cut { Always (λ T J. length (cut T J) ≤ 4294967295) }
    ensures few_held { Always (λ T J. length (held_after T J) ≤ 4294967295) }
    ensures keys { Always (λ T J.
        All (λ h. IsKeyInText T.version h.0 × (h.1 ≤ 255)) (held_after T J)) }
    ensures bytes { Always (λ T J.
        length (report_text T J (length (made T J)) (length (cut T J)) (held_after T J))
        ≤ 134217728) }
{}
