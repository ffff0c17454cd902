ghost use Rattle.std.specs.Prelude.{◌≡◌};
ghost use Rattle.sem_msg.specs.Codes.{code_number};

/// How a call is answered, with the number of each answer in a reply or a message.
#[derive(Clone, Copy, Debug, PartialEq, Eq)]
pub enum Code {
    /// The call succeeded.
    Ok = 0,
    /// No such VPE is declared.
    NoVpe = 1,
    /// The other VPE is dead.
    Dead = 2,
    /// The selector holds no capability.
    NoCap = 3,
    /// The capability is being revoked.
    Revoking = 4,
    /// The other VPE denies.
    Refused = 5,
    /// The destination is held or promised.
    Occupied = 6,
    /// The VPE has drawn all its numbers.
    Numbers = 7,
    /// The capability is of the wrong kind.
    BadKind = 8,
    /// The call asks for more than the capability gives.
    Wider = 9,
    /// No such service is declared.
    NoService = 10,
    /// The capability is gone.
    Gone = 11,
    /// The endpoint is not bound.
    Unbound = 12,
    /// The endpoint does not allow it.
    Rights = 13,
    /// It is out of the range of the endpoint.
    Range = 14,
    /// The other VPE is the caller itself.
    SelfExchange = 15,
}

impl Code {
    /// The number of the code in a reply or a message, 0 to 15.
    pub fn number(self) -> u8
        ensures { result ≡ code_number self }
    {
        self as u8
    }
}
