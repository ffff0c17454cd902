// Why there is no list of all outcomes.
ghost use Rattle.std.specs.Prelude.{◌≡◌};

use sem_key::OutOfMemory;
use thiserror::Error;

/// Why there is no list of all outcomes.
#[derive(Clone, Copy, Debug, PartialEq, Eq, Error)]
pub enum SearchError {
    /// There are more histories than the limit allows.
    #[error("there are more histories than the limit")]
    TooMany,
    #[error("out of memory")]
    Memory,
}

impl From<OutOfMemory> for SearchError {
    ghost use Rattle.sem_outcomes.specs.declared.faults.SearchError.TheVariants.{Memory};

    ghost from_gives = { λ _ e. e ≡ Memory };

    fn from(_error: OutOfMemory) -> Self {
        SearchError::Memory
    }
}
