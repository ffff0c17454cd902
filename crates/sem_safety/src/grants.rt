ghost use Rattle.std.specs.Prelude.{◌≡◌, List, ◌∷◌, ◌++◌, Contains, Some};
ghost use Rattle.sem_key.specs.KeyName.{KeyName};
ghost use Rattle.sem_msg.specs.declared.entry.Entry.{Entry};
ghost use Rattle.sem_msg.specs.declared.event.Event.{Event};
ghost use Rattle.sem_msg.specs.Setup.{Setup};
ghost use Rattle.sem_machine.specs.Machine.{World, entry_of};
ghost use Rattle.sem_machine.specs.Schedules.{IsSchedule, world_after};
ghost use Rattle.sem_machine.specs.Journals.{made, grants, root_keys};
ghost use Rattle.sem_machine.specs.Safety.{HoldsUnmarked, sound_grants};
ghost use Rattle.sem_safety.specs.Growth.{IsGrown};
ghost use Rattle.sem_safety.specs.NewGrants.{AreNew};

/// Just before a grant its kernel holds the parent, unmarked; so the parent was made by then. This
/// is the half of sound grants that speaks of the parent.
pub fn grants_are_below_what_is_held()
    ensures event { (T : Setup) (W : World) (e : Event) (p k : KeyName) →
        (entry_of T W e).grant ≡ Some (p, k) → HoldsUnmarked W e.kernel p }
    ensures entry { (T : Setup) (J before later : List Entry) (e : Entry) (p k : KeyName) →
        IsSchedule T J → J ≡ before ++ e ∷ later → e.grant ≡ Some (p, k) →
        HoldsUnmarked (world_after T before) e.event.kernel p }
    ensures made { (T : Setup) (J before later : List Entry) (e : Entry) (p k : KeyName) →
        IsSchedule T J → J ≡ before ++ e ∷ later → e.grant ≡ Some (p, k) →
        Contains (made T before) p }
{}

/// If each grant of a schedule is of a key that was never made before, the grants grow key by key,
/// and are sound.
pub fn new_grants_are_sound()
    ensures grown { (T : Setup) (J : List Entry) → IsSchedule T J → AreNew T J →
        IsGrown (root_keys T) (grants J) }
    ensures sound_grants { (T : Setup) (J : List Entry) → IsSchedule T J → AreNew T J →
        sound_grants T J }
{}
