// Why a journal is no complete schedule.
ghost use Rattle.std.specs.Prelude.{◌≡◌};

use sem_key::OutOfMemory;
use sem_msg::Entry;
use thiserror::Error;

/// Why a journal is not known to be a complete schedule.
#[derive(Clone, Copy, Debug, PartialEq, Eq, Error)]
pub enum CheckError {
    /// The first entry, counted from 0, that its event does not make. With it comes the one that
    /// the event makes, or none if the event is not enabled.
    #[error("entry {entry} is not the one that its event makes")]
    Differs {
        entry: u64,
        entered: Entry,
        replayed: Option<Entry>,
    },
    /// An event is enabled after all of that many entries. With it comes the entry that the first
    /// such event makes.
    #[error("an event is enabled after {entry} entries")]
    Incomplete {
        entry: u64,
        next: Entry,
    },
    #[error("out of memory")]
    Memory,
}

impl From<OutOfMemory> for CheckError {
    ghost use Rattle.sem_check.specs.declared.faults.CheckError.TheVariants.{Memory};

    ghost from_gives = { λ _ e. e ≡ Memory };

    fn from(_error: OutOfMemory) -> Self {
        CheckError::Memory
    }
}
