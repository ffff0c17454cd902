// A law of the faults of journals. The function does nothing: its promise holds for all setups and
// journals.
ghost use Rattle.std.specs.Prelude.{◌≡◌, ℕ, List, Option};
ghost use Rattle.sem_msg.specs.declared.entry.Entry.{Entry as EntryData};
ghost use Rattle.sem_msg.specs.Setup.{Setup as SetupRecord};
ghost use Rattle.sem_machine.specs.Schedules.{IsSchedule, world_after};
ghost use Rattle.sem_machine.specs.Living.{IsQuiet};
ghost use Rattle.sem_check.specs.Replays.{DiffersAt};
ghost use Rattle.sem_check.specs.Verdicts.{GoesOn};

/// A journal has one verdict. No entry of a schedule differs, and a schedule with a quiet world
/// after it does not go on. There is at most one fault of each kind.
pub fn a_journal_has_one_verdict()
    ensures schedule { (T : SetupRecord) (J : List EntryData)
        (n : ℕ) (x : EntryData) (a : Option EntryData)
        → DiffersAt T J n x a → ¬ IsSchedule T J }
    ensures quiet { (T : SetupRecord) (J : List EntryData) (n : ℕ) (x : EntryData)
        → GoesOn T J n x → ¬ IsQuiet T (world_after T J) }
    ensures one_difference { (T : SetupRecord) (J : List EntryData)
        (m n : ℕ) (x y : EntryData) (a b : Option EntryData)
        → DiffersAt T J m x a → DiffersAt T J n y b → (m ≡ n) × (x ≡ y) × (a ≡ b) }
    ensures one_next { (T : SetupRecord) (J : List EntryData) (m n : ℕ) (x y : EntryData)
        → GoesOn T J m x → GoesOn T J n y → (m ≡ n) × (x ≡ y) }
{}
