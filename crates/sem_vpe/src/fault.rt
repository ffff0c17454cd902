use sem_msg::Code;
use thiserror::Error;

/// The selector is held or promised.
#[derive(Clone, Copy, Debug, PartialEq, Eq, Error)]
#[error("the selector is held or promised")]
pub struct Occupied;

/// The VPE has drawn all its numbers.
#[derive(Clone, Copy, Debug, PartialEq, Eq, Error)]
#[error("all numbers of the VPE were drawn")]
pub struct Numbers;

impl From<Occupied> for Code {
    ghost use Rattle.std.specs.Prelude.{◌≡◌};
    ghost use Rattle.sem_msg.specs.declared.code.Code.TheVariants.{Occupied};

    ghost from_gives = { λ _ code. code ≡ Occupied };

    fn from(_: Occupied) -> Code {
        Code::Occupied
    }
}

impl From<Numbers> for Code {
    ghost use Rattle.std.specs.Prelude.{◌≡◌};
    ghost use Rattle.sem_msg.specs.declared.code.Code.TheVariants.{Numbers};

    ghost from_gives = { λ _ code. code ≡ Numbers };

    fn from(_: Numbers) -> Code {
        Code::Numbers
    }
}
