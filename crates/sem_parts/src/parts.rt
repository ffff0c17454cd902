ghost use Rattle.std.specs.Prelude.{◌≡◌, ℕ, ◌<◌, ◌↔◌, List, ◌++◌, length};
ghost use Rattle.sem_msg.specs.declared.entry.Entry.{Entry};
ghost use Rattle.sem_msg.specs.Setup.{Setup};
ghost use Rattle.sem_msg.specs.Journal.{part, replies, flushed, fetched};
ghost use Rattle.sem_machine.specs.Machine.{side, link};
ghost use Rattle.sem_machine.specs.Schedules.{IsSchedule, world_after, local_run};
ghost use Rattle.sem_parts.specs.Parts.{AreParts};

/// A journal is a schedule exactly if each of its entries is of a kernel of the setup, the part of
/// each kernel is a local run of it, and the parts agree. After it each side is what that run makes
/// of it, each link has what was flushed and not fetched, and the replies are those of the journal.
pub fn schedules_are_parts()
    ensures law { (T : Setup) (J : List Entry) → IsSchedule T J ↔ AreParts T J }
    ensures sides { (T : Setup) (J : List Entry) → IsSchedule T J → (i : ℕ) → i < T.kernels
        → side (world_after T J) i ≡ local_run T i (part J i) }
    ensures links { (T : Setup) (J : List Entry) → IsSchedule T J → (i j : ℕ)
        → flushed J i j ≡ fetched J i j ++ link (world_after T J) i j }
    ensures replies { (T : Setup) (J : List Entry) → IsSchedule T J →
        (world_after T J).replies ≡ length (replies J) }
{}
