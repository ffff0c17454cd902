use thiserror::Error;

/// What is wrong with 64 bytes that are no message's record.
#[derive(Clone, Copy, Debug, PartialEq, Eq, Error)]
pub enum WireFault {
    /// The first byte is the number of no message.
    #[error("no message has that number")]
    Tag,
    /// The row at that place holds a value that the message does not allow there.
    #[error("a value is not allowed at {at}")]
    Field { at: u8 },
    /// The message does not use the row at that place, and the row is not empty.
    #[error("bytes that are not used are not 0 at {at}")]
    Padding { at: u8 },
}
