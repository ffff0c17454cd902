ghost use Rattle.std.specs.Prelude.{◌≡◌, ℕ, ◌<◌, Bool, List, [], map, replicate, slice_set};
ghost use Rattle.std.specs.List.{range_with_len};
ghost use Rattle.sem_msg.specs.declared.entry.Entry.{Entry};
ghost use Rattle.sem_msg.specs.Setup.{Setup};
ghost use Rattle.sem_msg.specs.Fabric.{FabricValue, IsSquare};
ghost use Rattle.sem_machine.specs.Sides.{Side};
ghost use Rattle.sem_machine.specs.Machine.{start_side, after};
ghost use Rattle.sem_machine.specs.Schedules.{IsSchedule, world_after};
ghost use Rattle.sem_parts.specs.SidesAfter.{HasEntered, AreSidesAfter, fabric_with, world_with};

/// If kernels and a fabric stand at a schedule, the journal is a schedule, and they are the world
/// after it. New ones stand so. They still do after the step of a kernel, which is an event of that
/// world. After each schedule there are such kernels and such a fabric.
pub fn kernels_and_fabric_stand_at_schedules()
    ensures schedule { (T : Setup) (sides : List Side) (f : FabricValue) → AreSidesAfter T sides f →
        IsSchedule T f.journal }
    ensures world { (T : Setup) (sides : List Side) (f : FabricValue) → AreSidesAfter T sides f
        → world_after T f.journal ≡ world_with sides f }
    ensures start { (T : Setup) (places : List Bool) →
        AreSidesAfter T (map (start_side T) (range_with_len 0 T.kernels))
        (fabric_with T [] (replicate T.kernels (replicate T.kernels [])) places) }
    ensures step { (T : Setup) (sides : List Side) (f g : FabricValue) (i : ℕ) (e : Entry)
        (t : Side)
        → AreSidesAfter T sides f → i < T.kernels → IsSquare T.kernels g.links
        → HasEntered T i e t f g → AreSidesAfter T (slice_set sides i t) g }
    ensures event { (T : Setup) (sides : List Side) (f g : FabricValue) (i : ℕ) (e : Entry)
        (t : Side)
        → AreSidesAfter T sides f → i < T.kernels → IsSquare T.kernels g.links
        → HasEntered T i e t f g
        → world_with (slice_set sides i t) g ≡ after T (world_with sides f) e.event }
    ensures after { (T : Setup) (J : List Entry) (places : List Bool) → IsSchedule T J →
        AreSidesAfter T (world_after T J).sides
        (fabric_with T J (world_after T J).links places) }
{}
