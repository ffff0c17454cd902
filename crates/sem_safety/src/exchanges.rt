ghost use Rattle.std.specs.Prelude.{◌≡◌, ℕ, ◌<◌, ◌≤◌, true, List, length, Some, None};
ghost use Rattle.sem_msg.specs.declared.entry.Entry.{Entry};
ghost use Rattle.sem_msg.specs.declared.message.Message.TheVariants.{ObtainReq, DelegateReq};
ghost use Rattle.sem_msg.specs.declared.message.Target.{Target};
ghost use Rattle.sem_key.specs.KeyName.{KeyName};
ghost use Rattle.sem_key.specs.PlaceName.{PlaceName};
ghost use Rattle.sem_key.specs.declared.object.Object.{Object};
ghost use Rattle.sem_msg.specs.declared.limits.TheConstants.{ASKS};
ghost use Rattle.sem_msg.specs.Setup.{Setup};
ghost use Rattle.sem_machine.specs.Sides.{row, is_alive, parked};
ghost use Rattle.sem_machine.specs.Machine.{side};
ghost use Rattle.sem_machine.specs.Schedules.{Always, IsSchedule, world_after};

/// After every schedule a VPE never has more pending asks than there are VPEs. If a kernel has a
/// request to handle, or a VPE of it can make its next call, none of its queues is full: so no ask
/// is ever lost.
pub fn asks_are_few()
    ensures few { (T : Setup) (J : List Entry) → IsSchedule T J → (i w : ℕ) →
        length (row (side (world_after T J) i) w).asks ≤ length T.vpes }
    ensures obtain { Always (λ T J. (i w from : ℕ) (place : PlaceName) (target : Target) →
        (side (world_after T J) i).inbox ≡ Some (from, ObtainReq place target) →
        length (row (side (world_after T J) i) w).asks < ASKS) }
    ensures delegate { Always (λ T J. (i w from vpe sel : ℕ) (parent : KeyName) (object : Object) →
        (side (world_after T J) i).inbox ≡ Some (from, DelegateReq parent object vpe sel) →
        length (row (side (world_after T J) i) w).asks < ASKS) }
    ensures call { Always (λ T J. (i w v : ℕ) → is_alive (side (world_after T J) i) v ≡ true →
        parked (side (world_after T J) i) v ≡ None →
        length (row (side (world_after T J) i) w).asks < ASKS) }
{}
