ghost use Rattle.std.specs.Prelude.{◌≡◌, [], ◌∷◌, true, None};
ghost use Rattle.sem_msg.specs.declared.event.Act.TheVariants.{Fetch};
ghost use Rattle.sem_msg.specs.Setup.{IsSetup};
ghost use Rattle.sem_msg.specs.Journal.{Agrees};
ghost use Rattle.sem_machine.specs.Machine.{start_side, is_locally_enabled, local_entry};
ghost use Rattle.sem_machine.specs.Schedules.{IsSchedule};
ghost use Rattle.sem_parts.specs.Lonely.{lonely};

/// Why a local run needs the message of a fetch. A fetch by a kernel to which nothing was sent is
/// locally enabled, its step makes its entry, and the journal of that one entry agrees; but it is
/// no schedule.
pub fn fetches_have_to_bring()
    ensures setup { IsSetup lonely }
    ensures enabled { is_locally_enabled lonely 0 (start_side lonely 0) (Fetch 1) ≡ true }
    ensures agrees { Agrees lonely (local_entry lonely 0 (start_side lonely 0) (Fetch 1) None
        ∷ []) }
    ensures refused { IsSchedule lonely (local_entry lonely 0 (start_side lonely 0) (Fetch 1) None
        ∷ []) → ⊥ }
{}
