use sem_msg::Call;

/// What a line between the first and the last says.
#[derive(Clone, Copy, Debug, PartialEq, Eq)]
pub enum Declaration {
    /// How many kernels there are.
    Kernels {
        kernels: u32,
    },
    /// How many messages a link holds.
    Window {
        window: u32,
    },
    /// A kernel owns the PE.
    Pe {
        pe: u8,
        kernel: u32,
    },
    /// A VPE is on the PE.
    Vpe {
        vpe: u16,
        pe: u8,
    },
    /// A VPE holds memory at the selector.
    Memory {
        vpe: u16,
        sel: u8,
        base: u32,
        len: u32,
        rights: u8,
    },
    /// A VPE holds a receive gate at the selector.
    Receive {
        vpe: u16,
        sel: u8,
        slots: u8,
    },
    /// A VPE holds the service of that name at the selector.
    Service {
        vpe: u16,
        sel: u8,
        name: u8,
    },
    /// The service of that name offers the capability at the selector.
    Offer {
        name: u8,
        index: u8,
        sel: u8,
    },
    /// A VPE denies what the other asks.
    Deny {
        vpe: u16,
        asker: u16,
    },
    /// A VPE is killed after that many replies.
    Kill {
        vpe: u16,
        replies: u64,
    },
    /// A VPE makes the call.
    Call {
        vpe: u16,
        call: Call,
    },
    /// Nothing more is said: the last line.
    End,
}
