ghost use Rattle.sem_machine.specs.Schedules.{IsSchedule};
ghost use Rattle.sem_files.specs.Compiled.{compiled, AreFiles};
ghost use Rattle.sem_fs.specs.Examples.{calls_of_one, run_of_one, calls_of_three, run_of_three};
ghost use Rattle.sem_fs.specs.Examples.{one_client, journal_of_one, closed_in_one};
ghost use Rattle.sem_fs.specs.SharedFile.{two_clients, journal_of_two, closed_in_two};
ghost use Rattle.sem_fs.specs.SharedFile.{ClosesWhileSharing};

/// The setup that file commands compile to, and what comes of it, by computation.
pub fn files_run()
    ensures calls { calls_of_one }
    ensures run { run_of_one }
    ensures calls_of_three { calls_of_three }
    ensures run_of_three { run_of_three }
{}

/// The laws of file commands are not empty: there are commands of one client, with a schedule in
/// which its file is closed.
pub fn files_are_closed()
    ensures files { AreFiles one_client }
    ensures schedule { IsSchedule (compiled one_client) journal_of_one }
    ensures closed { closed_in_one }
{}

/// Two clients: one shares its file and closes it while the share is on its way, and then the other
/// writes. The commands stand, this is a schedule of them, and after it the file is closed.
pub fn a_share_meets_its_close()
    ensures files { AreFiles two_clients }
    ensures schedule { IsSchedule (compiled two_clients) journal_of_two }
    ensures meets { ClosesWhileSharing }
    ensures closed { closed_in_two }
{}
