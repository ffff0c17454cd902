/// The owner of a lane's lifeline.
#[derive(Clone, Copy, Debug, PartialEq, Eq)]
pub enum Lane {
    /// A kernel.
    Kernel { number: u32 },
    /// A VPE; its lane comes after its kernel's.
    Vpe { number: u16 },
}

/// What a message is about; it chooses the colour.
#[derive(Clone, Copy, Debug, PartialEq, Eq)]
pub enum Family {
    Obtain,
    Delegate,
    Revoke,
    Other,
}

/// What a row shows. Lanes are named by their places, from 0; a place without a lane is not drawn.
#[derive(Clone, Copy, Debug, PartialEq, Eq)]
pub enum Mark {
    /// A VPE calls its kernel, and waits unless it is answered in the same row.
    Call {
        vpe: usize,
        kernel: usize,
        is_answered: bool,
    },
    /// A kernel asks a VPE for its consent.
    Ask {
        kernel: usize,
        vpe: usize,
    },
    /// A kernel answers the call of a VPE.
    Answer {
        kernel: usize,
        vpe: usize,
    },
    /// A message leaves a kernel; `until` is the number of the row in which it arrives.
    Sent {
        from: usize,
        to: usize,
        until: Option<u64>,
        family: Family,
    },
    /// A message arrives that left in the row of number `since`.
    Arrived {
        from: usize,
        to: usize,
        since: u64,
        family: Family,
    },
    /// A kernel does something on its own.
    Dot {
        kernel: usize,
    },
    /// A VPE is killed.
    Kill {
        vpe: usize,
    },
    /// Nothing is drawn.
    Nothing,
}

/// A row of a chart. The numbers of rows rise.
#[derive(Debug, Drop)]
pub struct Row {
    pub number: u64,
    pub mark: Mark,
    /// The lane that ends after this row.
    pub ends: Option<usize>,
    pub label: String,
}

/// A message that left before the first row.
#[derive(Clone, Copy, Debug, PartialEq, Eq)]
pub struct Early {
    pub since: u64,
    pub from: usize,
    pub to: usize,
    pub family: Family,
}

/// A message chart.
#[derive(Debug, Drop)]
pub struct Chart {
    pub lanes: Vec<Lane>,
    /// The lanes, by place, of the VPEs that wait before the first row.
    pub waiting: Vec<usize>,
    /// The lanes, by place, of the VPEs that ended before the first row.
    pub ended: Vec<usize>,
    pub early: Vec<Early>,
    pub rows: Vec<Row>,
}
