ghost use Rattle.std.specs.Prelude.{◌≡◌, ◌++◌, ℕ, List, false};
ghost use Rattle.sem_msg.specs.declared.entry.Entry.{Entry};
ghost use Rattle.sem_msg.specs.declared.event.Event.{Event};
ghost use Rattle.sem_msg.specs.Setup.{Setup};
ghost use Rattle.sem_machine.specs.Sides.{is_alive};
ghost use Rattle.sem_machine.specs.Machine.{World, side, after};
ghost use Rattle.sem_machine.specs.Schedules.{run, world_after};
ghost use Rattle.sem_safety.specs.Onward.{IsOnwardWorld};

/// No event takes back a drawn number or id, a call or a reply, and none brings a VPE back to life.
/// The same holds for any journal.
pub fn what_is_dead_stays_dead()
    ensures event { (T : Setup) (W : World) (e : Event) → IsOnwardWorld W (after T W e) }
    ensures journal { (T : Setup) (J : List Entry) (W : World) → IsOnwardWorld W (run T W J) }
    ensures dead { (T : Setup) (before later : List Entry) (i v : ℕ) →
        is_alive (side (world_after T before) i) v ≡ false →
        is_alive (side (world_after T (before ++ later)) i) v ≡ false }
{}
