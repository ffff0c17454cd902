use sem_key::Key;

/// What the program is asked to do.
#[derive(Clone, Copy, Debug, PartialEq, Eq)]
pub enum Command {
    /// Writes the report of the seeded journal of the trace in the input.
    Run { seed: u64 },
    /// Runs the trace in the input with threads, and writes the report.
    Threads { seed: u64 },
    /// Runs the setup of the file commands in the input, and writes the report.
    Files { seed: u64 },
    /// Writes a generated trace of that many VPEs with that many calls each.
    Generate { seed: u64, vpes: u32, calls: u32 },
    /// Runs such a trace with threads, and writes a summary.
    Soak { seed: u64, vpes: u32, calls: u32 },
    /// Checks the report in the input, and answers a question about it.
    Ask { question: Question },
}

/// What is asked about a report.
#[derive(Clone, Copy, Debug, PartialEq, Eq)]
pub enum Question {
    /// Whether it is the report of a complete schedule.
    Check,
    /// What memory holds after it.
    Contents,
    /// Where the key is after its first `count` entries.
    Holder { key: Key, count: u64 },
    /// Along which line the key was made.
    Path { key: Key },
    /// Why that entry denies a call.
    Denied { entry: u64 },
}

// The seed of a generated setup, and the size of the setup.
#[derive(Clone, Copy)]
pub(crate) struct Load {
    pub seed: u64,
    pub vpes: u32,
    pub calls: u32,
}
