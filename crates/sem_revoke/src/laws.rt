//! The laws of safety and of idle worlds, as contracts of functions that do nothing.

ghost use Rattle.std.specs.Prelude.{◌≡◌, [], ◌∷◌, Contains};
ghost use Rattle.sem_msg.specs.Setup.{IsSetup};
ghost use Rattle.sem_machine.specs.Schedules.{Always, IsSchedule, world_after};
ghost use Rattle.sem_machine.specs.Journals.{ancestry, answered, forest};
ghost use Rattle.sem_machine.specs.Living.{IsOnItsWay, Binds, IsIdle};
ghost use Rattle.sem_machine.specs.Safety.{IsInUse, IsSafe};
ghost use Rattle.sem_revoke.specs.Resting.{IsAtRest};
ghost use Rattle.sem_revoke.specs.Sample.{sample, memory_key, derived_key, obtained_key, to_grant};
ghost use Rattle.sem_revoke.specs.Sample.{to_bind, to_revoke, to_clear, sample_journal};

/// Every schedule of every setup is safe: the six sentences hold after it. Every prefix of a
/// schedule is a schedule, so it is safe too.
pub fn safe()
    ensures safe { Always IsSafe }
{}

/// `safe` is not empty: a setup of two kernels has a schedule, with these prefixes. First a part of
/// a memory, which kernel 0 grants to a VPE of kernel 1, is on its way. Then it is held, and an
/// endpoint is bound to it. Its parent is revoked; once that is answered, the part is no longer in
/// use. The memory is obtained, and cleared; once that is answered, the obtained memory is gone,
/// and the memory itself is there.
pub fn safe_speaks_of_schedules()
    ensures setup { IsSetup sample }
    ensures grant { IsSchedule sample (sample_journal to_grant) }
    ensures bind { IsSchedule sample (sample_journal to_bind) }
    ensures revoke { IsSchedule sample (sample_journal to_revoke) }
    ensures clear { IsSchedule sample (sample_journal to_clear) }
    ensures on_its_way { IsOnItsWay (world_after sample (sample_journal to_grant))
        (obtained_key 0) }
    ensures line { ancestry (sample_journal to_grant) (obtained_key 0)
        ≡ obtained_key 0 ∷ derived_key ∷ memory_key ∷ [] }
    ensures bound { Binds (world_after sample (sample_journal to_bind)) 1 0 (obtained_key 0) }
    ensures revoked { Contains (answered (sample_journal to_revoke)) derived_key }
    ensures gone { ¬ IsInUse (world_after sample (sample_journal to_revoke)) (obtained_key 0) }
    ensures cleared { Contains (answered (sample_journal to_clear)) (obtained_key 1) }
    ensures gone_too { ¬ IsInUse (world_after sample (sample_journal to_clear)) (obtained_key 1) }
    ensures kept { Contains (forest sample (sample_journal to_clear)) memory_key }
{}

/// An idle world after a schedule of any setup is at rest: no call is parked, no job is open,
/// nothing is marked, no delegation is pending, each child link leads to a held capability that has
/// the holder of the link as its parent, and the held keys are the forest.
pub fn idle()
    ensures rest { Always (λ T J. IsIdle (world_after T J) → IsAtRest T J (world_after T J)) }
{}
