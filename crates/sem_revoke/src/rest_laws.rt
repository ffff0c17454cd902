ghost use Rattle.sem_machine.specs.Schedules.{Always, world_after};
ghost use Rattle.sem_machine.specs.Living.{IsIdle, IsQuiet, IsComplete};
ghost use Rattle.sem_revoke.specs.Rest.{jobs_owed, exchanges_owed, pendings_owed, parents_granted};
ghost use Rattle.sem_revoke.specs.Rest.{links_lead, cuts_answered, holds_the_forest};
ghost use Rattle.sem_revoke.specs.Rest.{dead_are_marked, WaitsForNothing};

/// After every schedule of every setup an open job has something that stirs, or an open job below
/// it that names it as the one to tell. A job counts its tokens that are out, and none of them is
/// lost.
pub fn jobs_are_owed()
    ensures owed { Always jobs_owed }
{}

/// After every schedule of every setup a call that waits for the answer to an ask has something
/// that stirs: its ask in a queue, or a message of it on its way. No such message is a stray, and
/// no queue is full.
pub fn exchanges_are_owed()
    ensures owed { Always exchanges_owed }
{}

/// After every schedule of every setup a pending delegation has its `DelegatePrepared` or its `Ack`
/// on its way, or the call that is ready to grant it. A held capability has the parent that its
/// grant tells.
pub fn delegations_are_owed()
    ensures owed { Always pendings_owed }
    ensures parents { Always parents_granted }
{}

/// After every schedule of every setup a child link of an unmarked capability leads to a live key,
/// or an Orphan or an Unlink of the two is in flight. So a lost key also loses the link to it, at
/// once or by a message.
pub fn unmarked_links_lead()
    ensures lead { Always links_lead }
{}

/// In an idle world after a schedule of any setup no call waits and nothing is left: no call is
/// parked, no job is open, nothing is marked, and no delegation is pending.
pub fn idle_worlds_wait_for_nothing()
    ensures idle { Always (λ T J. IsIdle (world_after T J) → WaitsForNothing (world_after T J)) }
{}

/// If no event is enabled in a world after a schedule of any setup, the world is idle.
pub fn quiet_worlds_are_idle()
    ensures idle { Always (λ T J. IsQuiet T (world_after T J) → IsIdle (world_after T J)) }
{}

/// If no event is enabled after a schedule of any setup, the schedule is complete: each call of a
/// VPE that is alive has its reply.
pub fn quiet_schedules_are_complete()
    ensures complete { Always (λ T J. IsQuiet T (world_after T J) → IsComplete T J) }
{}

/// After every schedule of every setup, the revoke or the clear that cut off a key succeeded, or
/// has no answer yet: success is the only answer to a call that cuts off.
pub fn cuts_are_answered()
    ensures answered { Always (λ T J. cuts_answered J) }
{}

/// After every schedule of every setup a job has marked all that a dead VPE still holds: the end of
/// the VPE marks all of it, and the VPE gets nothing more.
pub fn dead_vpes_lose_what_they_hold()
    ensures marked { Always dead_are_marked }
{}

/// In an idle world after a schedule of any setup, the held keys are exactly the forest.
pub fn idle_worlds_hold_the_forest()
    ensures forest { Always (λ T J. IsIdle (world_after T J) → holds_the_forest T J) }
{}
