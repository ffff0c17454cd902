ghost use Rattle.std.specs.Prelude.{◌≤◌, ◌↔◌, List, length};
ghost use Rattle.sem_msg.specs.declared.entry.Entry.{Entry};
ghost use Rattle.sem_msg.specs.Setup.{Setup, IsSetup};
ghost use Rattle.sem_machine.specs.Schedules.{IsSchedule};
ghost use Rattle.sem_histories.specs.Outcomes.{RunOutcome, IsOutcome};
ghost use Rattle.sem_histories.specs.Closed.{Telling, CountsAs, Represents, IsClosed};
ghost use Rattle.sem_histories.specs.Closed.{IsOutcomeAmong};
ghost use Rattle.sem_histories.specs.Search.{AreApart};

/// A closed set of schedules represents every schedule of the setup. Its complete schedules have
/// exactly the outcomes of the setup, whether schedules are told apart by their parts or by their
/// states. No list of schedules that are told apart is longer.
pub fn closed_sets_have_all_outcomes()
    ensures all { (by : Telling) (T : Setup) (V : List (List Entry)) → IsClosed (CountsAs by T) T V
        → (J : List Entry) → IsSchedule T J → Represents (CountsAs by T) V J }
    ensures exact { (by : Telling) (T : Setup) → IsSetup T → (V : List (List Entry)) →
        IsClosed (CountsAs by T) T V
        → (o : RunOutcome) → IsOutcome T o ↔ IsOutcomeAmong T V o }
    ensures most { (by : Telling) (T : Setup) (V W : List (List Entry)) →
        IsClosed (CountsAs by T) T V
        → AreApart (CountsAs by T) T W → length W ≤ length V }
{}

/// Every setup has a closed set: it has finitely many schedules.
pub fn closed_sets_exist()
    ensures { (by : Telling) (T : Setup) → IsSetup T →
        (V : List (List Entry)) × IsClosed (CountsAs by T) T V }
{}
