use thiserror::Error;

/// What a VPE does through an endpoint.
#[derive(Clone, Copy, Debug, PartialEq, Eq)]
pub enum Op {
    /// It reads `len` bytes of a memory, from its byte `off` on.
    Read { off: u32, len: u32 },
    /// It writes `len` bytes of a memory, from its byte `off` on.
    Write { off: u32, len: u32 },
    /// It sends a message of `len` bytes.
    Send { len: u32 },
    /// It takes back the credit of the oldest message.
    Credit,
}

/// Why an endpoint refuses.
#[derive(Clone, Copy, Debug, PartialEq, Eq, Error)]
pub enum UseFault {
    /// It is not bound.
    #[error("the endpoint is not bound")]
    Unbound = 1,
    /// It is bound to something that does not allow the operation.
    #[error("the endpoint does not allow it")]
    Rights = 2,
    /// The bytes go past the end of the memory, or the credits are used up, or no message is left
    /// to credit.
    #[error("it is out of the range of the endpoint")]
    Range = 3,
}
