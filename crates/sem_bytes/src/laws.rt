// Laws of accesses, as contracts of functions that do nothing.

ghost use Rattle.std.specs.Prelude.{◌≡◌, ◌++◌, ◌∷◌, List, Contains, Some, take};
ghost use Rattle.sem_msg.specs.declared.entry.Entry.{Entry};
ghost use Rattle.sem_msg.specs.Setup.{Setup, IsSetup};
ghost use Rattle.sem_machine.specs.Schedules.{Always, IsSchedule, world_after};
ghost use Rattle.sem_access.specs.declared.access.Access.{Access as AccessData};
ghost use Rattle.sem_access.specs.Accesses.{accesses, access_of};
ghost use Rattle.sem_access.specs.ContentsText.{contents};
ghost use Rattle.sem_bytes.specs.Owning.{AccessesAreOwned};
ghost use Rattle.sem_bytes.specs.Sample.{alone, alone_journal, alone_text};
ghost use Rattle.sem_bytes.specs.Sample.{sample, sample_journal, sample_accesses};

/// A VPE reads and writes only what it was granted. Just before each access the accessing VPE holds
/// the access's key, which is not being revoked. The access lies in the memory of every key from
/// there down to a root, and no answered call has cut any of these keys off.
pub fn bytes_owned()
    ensures owned { Always AccessesAreOwned }
{}

/// Each access of a journal is that of the entry at its place, in the world before it.
pub fn accesses_are_of_entries()
    ensures { (T : Setup) (J : List Entry) (x : AccessData) → Contains (accesses T J) x
        → (e : Entry) × (later : List Entry) × (J ≡ take x.entry J ++ e ∷ later)
        × (access_of (world_after T (take x.entry J)) x.entry e ≡ Some x) }
{}

/// The law is not empty: a schedule of two kernels in which a VPE writes to its memory, and another
/// one writes to and reads from a part of it that it obtained.
pub fn bytes_owned_speaks_of_accesses()
    ensures setup { IsSetup sample }
    ensures schedule { IsSchedule sample sample_journal }
    ensures accesses { accesses sample sample_journal ≡ sample_accesses }
{}

/// If two writes overlap, the later one wins: the text of a schedule of one kernel.
pub fn later_writes_win()
    ensures schedule { IsSchedule alone alone_journal }
    ensures text { contents alone alone_journal ≡ alone_text }
{}
