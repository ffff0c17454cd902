// The verdict on a text that should be a report.
use sem_msg::{Audit, Entry, Journal, Setup};
use sem_trace::TraceFault;

/// The verdict on bytes that should be the report of a complete schedule: that they are, or the
/// first thing wrong with them.
#[derive(Debug, Drop)]
pub enum Verdict {
    /// They are the report of this journal, a complete schedule of the setup, with this audit.
    Accepted {
        setup: Setup,
        journal: Journal,
        audit: Audit,
    },
    /// This line is bad.
    BadLine {
        fault: TraceFault,
    },
    /// This entry of the journal, counted from 0, is not the one that its event makes. With it
    /// comes the right one, or none if the event is not enabled.
    BadEntry {
        journal: Journal,
        entry: u64,
        entered: Entry,
        replayed: Option<Entry>,
    },
    /// An event is enabled after the journal. With it comes the entry that the first such event
    /// makes.
    NotOver {
        journal: Journal,
        next: Entry,
    },
    /// In this line the told audit differs from the due one.
    BadAudit {
        line: u64,
        due: Audit,
    },
}
