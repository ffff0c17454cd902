use crate::op::UseFault;
use sem_msg::Code;

impl From<UseFault> for Code {
    ghost use Rattle.std.specs.Prelude.{◌≡◌};
    ghost use Rattle.sem_dtu.specs.Uses.{fault_code};

    ghost from_gives = { λ fault code. code ≡ fault_code fault };

    fn from(fault: UseFault) -> Code {
        match fault {
            UseFault::Unbound => Code::Unbound,
            UseFault::Rights => Code::Rights,
            UseFault::Range => Code::Range,
        }
    }
}
