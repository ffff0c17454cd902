ghost use Rattle.std.specs.Prelude.{List, Contains};
ghost use Rattle.sem_key.specs.KeyName.{KeyName};
ghost use Rattle.sem_msg.specs.declared.entry.Entry.{Entry};
ghost use Rattle.sem_msg.specs.Setup.{Setup};
ghost use Rattle.sem_machine.specs.Schedules.{IsSchedule, world_after};
ghost use Rattle.sem_machine.specs.Journals.{made};
ghost use Rattle.sem_machine.specs.Safety.{IsInUse};

/// After every schedule of every setup, each key in use was made: it is a root's, or the child of a
/// grant of the journal.
pub fn what_is_used_was_made()
    ensures made { (T : Setup) (J : List Entry) → IsSchedule T J → (k : KeyName) →
        IsInUse (world_after T J) k → Contains (made T J) k }
{}
