ghost use Rattle.std.specs.Prelude.{◌<◌, Contains};
ghost use Rattle.sem_key.specs.KeyName.{KeyName};
ghost use Rattle.sem_msg.specs.Lookups.{kernel_of};
ghost use Rattle.sem_machine.specs.Sides.{row};
ghost use Rattle.sem_machine.specs.Machine.{side};
ghost use Rattle.sem_machine.specs.Schedules.{Always, world_after};
ghost use Rattle.sem_machine.specs.Journals.{made};

/// The number of each made key was drawn by its VPE, at its kernel.
pub fn made_keys_were_drawn()
    ensures drawn { Always (λ T J. (k : KeyName) → Contains (made T J) k →
        k.number < (row (side (world_after T J) (kernel_of T k.vpe)) k.vpe).next_number) }
{}
