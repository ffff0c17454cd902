// Why not all given events happen.
ghost use Rattle.std.specs.Prelude.{◌≡◌};

use sem_key::OutOfMemory;
use thiserror::Error;

/// Why not all given events happened.
#[derive(Clone, Copy, Debug, PartialEq, Eq, Error)]
pub enum PlayError {
    /// The event at this place, counted from 0, is not enabled after those before it.
    #[error("event {at} is not enabled")]
    NotEnabled { at: usize },
    #[error("out of memory")]
    Memory,
}

impl From<OutOfMemory> for PlayError {
    ghost use Rattle.sem_serial.specs.declared.faults.PlayError.TheVariants.{Memory};

    ghost from_gives = { λ _ e. e ≡ Memory };

    fn from(_error: OutOfMemory) -> Self {
        PlayError::Memory
    }
}
