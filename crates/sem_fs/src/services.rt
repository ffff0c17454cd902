ghost use Rattle.sem_fs.specs.Supplies.{IsSupplied};
ghost use Rattle.sem_fs.specs.Going.{IsGoing};
ghost use Rattle.sem_fs.specs.Laws.{OfServices, nobody_ends, marks_are_own};
ghost use Rattle.sem_fs.specs.Laws.{requests_are_own, replies_succeed};

/// In a file service no VPE ends. A capability granted below a root of the server is marked, or
/// requested to be revoked, only while its VPE waits for a revoke.
pub fn clients_revoke_their_own()
    ensures unending { OfServices nobody_ends }
    ensures unmarked { OfServices marks_are_own }
    ensures unasked { OfServices requests_are_own }
{}

/// Every schedule of a file service goes well and runs out of nothing, and each reply in it is a
/// success.
pub fn services_go_on()
    ensures going { OfServices IsGoing }
    ensures supplied { OfServices IsSupplied }
    ensures succeed { OfServices replies_succeed }
{}
