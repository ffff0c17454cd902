// The rows of a story.
use crate::stages::Stage;
use sem_key::Key;

/// What happened to a key.
#[derive(Clone, Copy, Debug, PartialEq, Eq)]
pub enum Happening {
    /// The trace declares it at this selector.
    Declared { selector: u8 },
    /// It was made.
    Granted,
    /// It was sent to the kernel of its VPE.
    Sent,
    /// It arrived at that kernel.
    Arrived,
    /// It is held at this selector.
    Held { selector: u8 },
    /// This endpoint was bound to it.
    Bound { endpoint: u8 },
    /// This endpoint is no longer bound to it.
    Unbound { endpoint: u8 },
    /// This key was made from it.
    Child { key: Key },
    /// This job marked it.
    Marked { job: u32 },
    /// Its mark was taken away.
    Unmarked,
    /// It is gone, or will not come.
    Gone,
}

/// What happened to the key, the number of the entry that did it (none at the start), and the key's
/// stage after it.
#[derive(Clone, Copy, Debug)]
pub struct StoryRow {
    pub entry: Option<u64>,
    pub happening: Happening,
    pub stage: Stage,
}
