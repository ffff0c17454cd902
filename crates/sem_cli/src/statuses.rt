ghost use Rattle.std.specs.Prelude.{◌≡◌};
ghost use Rattle.sem_cli.specs.Statuses.{status_number};

/// How a run of the program ended.
#[derive(Clone, Copy, Debug, PartialEq, Eq)]
pub enum Status {
    /// All that was asked for is done.
    Done,
    /// The words are no command.
    Usage,
    /// The input is no trace.
    TraceRefused,
    /// The input could not be read.
    ReadFault,
    /// The output could not be written.
    WriteFault,
    /// Memory was refused.
    Memory,
    /// The input is not the report of a complete schedule.
    ReportRefused,
}

impl Status {
    /// The exit status of the program.
    pub fn number(self) -> u8
        ensures { result ≡ status_number self }
    {
        match self {
            Status::Done => 0,
            Status::Usage => 1,
            Status::TraceRefused => 2,
            Status::ReadFault => 3,
            Status::WriteFault => 4,
            Status::Memory => 5,
            Status::ReportRefused => 9,
        }
    }
}
