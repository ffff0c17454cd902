ghost use Rattle.std.specs.Prelude.{◌≡◌, ℕ, true, List};
ghost use Rattle.sem_msg.specs.declared.entry.Entry.{Entry};
ghost use Rattle.sem_msg.specs.declared.event.Event.{Event};
ghost use Rattle.sem_msg.specs.Setup.{Setup, IsSetup};
ghost use Rattle.sem_machine.specs.Machine.{is_enabled};
ghost use Rattle.sem_machine.specs.Schedules.{IsSchedule, world_after};
ghost use Rattle.sem_machine.specs.Living.{IsComplete};
ghost use Rattle.sem_histories.specs.Outcomes.{HasSameParts, HasSameState, and_then, codes_to};
ghost use Rattle.sem_histories.specs.Outcomes.{outcome};

/// Two schedules in which each kernel has the same part lead to the same world, and each VPE got
/// the same replies. So they have the same outcome, and if one is complete, so is the other. An
/// event keeps this.
pub fn histories_tell_worlds()
    ensures worlds { (T : Setup) (J K : List Entry) → IsSchedule T J → IsSchedule T K →
        HasSameParts T J K
        → world_after T J ≡ world_after T K }
    ensures codes { (T : Setup) (J K : List Entry) → IsSchedule T J → IsSchedule T K →
        HasSameParts T J K
        → (v : ℕ) → codes_to J v ≡ codes_to K v }
    ensures outcomes { (T : Setup) (J K : List Entry) → IsSchedule T J → IsSchedule T K →
        HasSameParts T J K
        → outcome T J ≡ outcome T K }
    ensures complete { (T : Setup) (J K : List Entry) → IsComplete T J → IsSchedule T K →
        HasSameParts T J K
        → IsComplete T K }
    ensures states { (T : Setup) (J K : List Entry) → IsSchedule T J → IsSchedule T K →
        HasSameParts T J K
        → HasSameState T J K }
    ensures next { (T : Setup) (J K : List Entry) (e : Event) → IsSchedule T J → IsSchedule T K →
        HasSameParts T J K
        → is_enabled T (world_after T J) e ≡ true →
        HasSameParts T (and_then T J e) (and_then T K e) }
{}

/// Journals with the same state have the same outcome, and an event keeps the states the same. If
/// one of two schedules with the same state is complete, so is the other, in every setup.
pub fn states_tell_outcomes()
    ensures outcomes { (T : Setup) (J K : List Entry) → HasSameState T J K →
        outcome T J ≡ outcome T K }
    ensures complete { (T : Setup) → IsSetup T → (J K : List Entry) → IsComplete T J →
        IsSchedule T K
        → HasSameState T J K → IsComplete T K }
    ensures next { (T : Setup) (J K : List Entry) (e : Event) → HasSameState T J K
        → HasSameState T (and_then T J e) (and_then T K e) }
{}
