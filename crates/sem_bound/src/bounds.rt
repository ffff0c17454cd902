ghost use Rattle.std.specs.Prelude.{◌≡◌, ◌+◌, ◌*◌, ◌≤◌, [], ◌∷◌, length};
ghost use Rattle.sem_msg.specs.Setup.{IsSetup, call_count, kill_count};
ghost use Rattle.sem_machine.specs.Schedules.{Always, IsSchedule, world_after};
ghost use Rattle.sem_machine.specs.Living.{IsQuiet};
ghost use Rattle.sem_machine.specs.Seeded.{entry_bound, entry_limit};
ghost use Rattle.sem_bound.specs.Counts.{calls_made, kills_made};
ghost use Rattle.sem_bound.specs.Costs.{costs_made, each_declared, costs_declared};
ghost use Rattle.sem_bound.specs.Costly.{costly, costly_journal};
ghost use Rattle.sem_bound.specs.EachCost.{each_cost, each_cost_journal};

/// Every schedule of every setup has at most as many entries as its calls can bring, each by its
/// kind, and one for each of its kills. So it has no more than all calls and kills of the setup can
/// bring.
pub fn costs_bounded()
    ensures journal { Always (λ T J. length J ≤ costs_made T J + kills_made J) }
    ensures setup { Always (λ T J. length J ≤ costs_declared T + kill_count T) }
{}

/// Every schedule of every setup has at most 21 entries for each of its calls and one for each of
/// its kills. So it has no more than a run can have, and after that many entries nothing is
/// enabled.
pub fn bounded()
    ensures bound { Always (λ T J. length J ≤ 21 * calls_made J + kills_made J) }
    ensures entries { Always (λ T J. length J ≤ entry_bound J) }
    ensures setup { Always (λ T J. length J ≤ 21 * call_count T + kill_count T) }
    ensures limit { Always (λ T J. length J ≤ entry_limit T) }
    ensures spent { Always (λ T J. entry_limit T ≤ length J → IsQuiet T (world_after T J)) }
{}

/// The bound is reached: a delegate across kernels, with the ends of both VPEs, makes 23 entries.
pub fn bound_is_reached()
    ensures setup { IsSetup costly }
    ensures schedule { IsSchedule costly costly_journal }
    ensures reached { length costly_journal
        ≡ 21 * calls_made costly_journal + kills_made costly_journal }
{}

/// Each cost is reached: three VPEs make calls that can bring 3, 21, 1, 3, 3, 1, 2, 2, 18, 18 and
/// 18 entries, one VPE is killed, and a schedule has exactly that many entries.
pub fn costs_are_reached()
    ensures setup { IsSetup each_cost }
    ensures schedule { IsSchedule each_cost each_cost_journal }
    ensures costs { each_declared each_cost ≡ 3 ∷ 21 ∷ 1 ∷ 3 ∷ 3 ∷ 1 ∷ 2 ∷ 2 ∷ 18 ∷ 18 ∷ 18 ∷ [] }
    ensures journal { length each_cost_journal
        ≡ costs_made each_cost each_cost_journal + kills_made each_cost_journal }
    ensures declared { length each_cost_journal ≡ costs_declared each_cost + kill_count each_cost }
{}
