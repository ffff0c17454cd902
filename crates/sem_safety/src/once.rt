ghost use Rattle.std.specs.Prelude.{◌≡◌, ℕ};
ghost use Rattle.sem_key.specs.KeyName.{KeyName};
ghost use Rattle.sem_key.specs.Capability.{Capability};
ghost use Rattle.sem_machine.specs.Machine.{side};
ghost use Rattle.sem_machine.specs.Schedules.{Always, world_after};
ghost use Rattle.sem_machine.specs.Journals.{grants, root_keys};
ghost use Rattle.sem_machine.specs.Living.{HoldsCap};
ghost use Rattle.sem_machine.specs.Safety.{lineage, sound_grants, sound_endpoints};
ghost use Rattle.sem_safety.specs.Growth.{IsGrown};
ghost use Rattle.sem_safety.specs.NewGrants.{AreNew};
ghost use Rattle.sem_safety.specs.Observations.{AreDistinct};

/// In every schedule of every setup each grant is of a key that was never made before. So the
/// grants grow key by key: no key is the child of two grants, and no root is the child of one.
pub fn each_key_is_made_once()
    ensures new { Always AreNew }
    ensures grown { Always (λ T J. IsGrown (root_keys T) (grants J)) }
{}

/// At most one kernel holds a key, and no kernel holds it twice, so the keys that a kernel holds
/// are distinct.
pub fn each_key_is_held_once()
    ensures kernel { Always (λ T J. (i j : ℕ) (k : KeyName) (c d : Capability) →
        HoldsCap (world_after T J) i k c → HoldsCap (world_after T J) j k d → i ≡ j) }
    ensures distinct { Always (λ T J. (i : ℕ) → AreDistinct (side (world_after T J) i).caps) }
{}

/// Three of the sentences of safety, for every schedule of every setup. Every key in use derives
/// from a root by accepted exchanges. Each grant is of a new key below one that its kernel holds
/// unmarked. An endpoint is bound to a key of its VPE that is held and unmarked, with the object
/// that the endpoint keeps.
pub fn grants_lines_and_endpoints_are_sound()
    ensures lineage { Always lineage }
    ensures sound_grants { Always sound_grants }
    ensures sound_endpoints { Always sound_endpoints }
{}
