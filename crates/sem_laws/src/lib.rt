//! The laws of the whole machine, each as one clause: what holds for every schedule of every setup.
#![tactic(auto)]

ghost use Rattle.sem_machine.specs.Safety.{IsSafe};
ghost use Rattle.sem_machine.specs.Schedules.{Always};
ghost use Rattle.sem_bytes.specs.Owning.{AccessesAreOwned};
ghost use Rattle.sem_fs.specs.Laws.{OfFiles, commands_succeed, closed_are_gone};
ghost use Rattle.sem_laws.specs.Every.{ForEveryJournal, ForEverySchedule, ForEveryFirstVersion};
ghost use Rattle.sem_laws.specs.Facts.{RestsWhenIdle, IsWithinBound, IsPaidByCalls, CountsMessages};
ghost use Rattle.sem_laws.specs.Facts.{IsScheduleByParts, IsToldByParts};
ghost use Rattle.sem_laws.specs.Facts.{RunsAsSecondVersion, IsToldByLives, IsExplained};

/// The six sentences of safety hold after every schedule. A prefix of a schedule is one too, so
/// they hold all along.
pub fn safe()
    ensures { Always IsSafe }
{
    sem_revoke::laws::safe();
}

/// An idle world is at rest: no call is parked, no job is open, nothing is marked, no delegation is
/// pending, every link leads to a held child, and the held keys are the forest.
pub fn idle()
    ensures { Always RestsWhenIdle }
{
    sem_revoke::laws::idle();
}

/// A schedule has at most 21 entries for each of its calls and one for each of its kills.
pub fn bounded()
    ensures { Always IsWithinBound }
{
    sem_bound::bounds::bounded();
}

/// A schedule has no more entries than its calls can bring, each by its kind, and one for each of
/// its kills.
pub fn costs_bounded()
    ensures { Always IsPaidByCalls }
{
    sem_bound::bounds::costs_bounded();
}

/// A journal is a schedule exactly if the part of each kernel is a local run and the parts agree.
/// The parts of a schedule tell the world after it.
pub fn schedules_are_parts()
    ensures law { ForEveryJournal IsScheduleByParts }
    ensures world { ForEverySchedule IsToldByParts }
{
    sem_parts::parts::schedules_are_parts();
}

/// The messages are counted. If a schedule leaves an idle world, as many replies were sent as
/// requests, kind by kind. The number of all messages is then two for each exchange and each
/// request to revoke, one more for each prepared delegate, and one for each notice. No more
/// requests to revoke were sent than grants were made across kernels. No clause ties one message to
/// one call.
pub fn messages_counted()
    ensures { Always CountsMessages }
{
    sem_messages::laws::requests_are_answered();
    sem_messages::laws::grants_are_told();
    sem_messages::laws::messages_are_counted();
    sem_messages::laws::revokes_follow_grants();
}

/// Every read and write that succeeds touches only memory that its VPE was granted.
pub fn bytes_owned()
    ensures { Always AccessesAreOwned }
{
    sem_bytes::laws::bytes_owned();
}

/// A setup of version 1 has the same schedules as the same setup of version 2 with a window of 4.
pub fn same_runs()
    ensures { ForEveryFirstVersion RunsAsSecondVersion }
{
    sem_machine::laws::same_runs();
}

/// The lives of the made keys tell where each key is after each number of entries: held, marked or
/// not, on its way to be held, or nowhere.
pub fn lives_tell_where_keys_are()
    ensures { Always IsToldByLives }
{
    sem_query::laws::lives_tell_where_keys_are();
}

/// There is exactly one answer to the question why an entry denies a call.
pub fn denials_are_explained()
    ensures { Always IsExplained }
{
    sem_query::laws::denials_are_explained();
    sem_query::laws::denials_have_one_text();
}

/// In every schedule of the setup that file commands compile to, each reply is a success.
pub fn files_succeed()
    ensures { OfFiles commands_succeed }
{
    sem_fs::files_succeed();
}

/// In every schedule of the setup that file commands compile to, no key that descends from a key of
/// a closed opening is live or bound.
pub fn files_closed()
    ensures { OfFiles closed_are_gone }
{
    sem_fs::files_closed();
}
