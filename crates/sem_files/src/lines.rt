use crate::files::{Command, FileDecl};

/// What a line after the second says.
#[derive(Clone, Copy, Debug, PartialEq, Eq)]
pub enum FileLine {
    /// How many kernels there are.
    Kernels { kernels: u32 },
    /// A file.
    File { declared: FileDecl },
    /// A client.
    Client { client: u16 },
    /// A client does something.
    Do { command: Command },
    /// Nothing more is said: the last line.
    End,
}
