/// A call that a VPE makes.
#[derive(Clone, Copy, Debug, PartialEq, Eq)]
pub enum Call {
    /// Make a smaller memory capability from one that the VPE holds.
    Derive {
        src: u8,
        dst: u8,
        off: u32,
        len: u32,
        rights: u8,
    },
    /// Make a send gate for a receive gate that the VPE holds.
    Gate {
        src: u8,
        dst: u8,
        label: u32,
        credits: u8,
    },
    /// Ask another VPE for the capability at one of its selectors.
    Obtain {
        dst: u8,
        vpe: u16,
        src: u8,
    },
    /// Give a capability to another VPE.
    Delegate {
        src: u8,
        vpe: u16,
        dst: u8,
    },
    /// Open a session with a service.
    OpenSession {
        dst: u8,
        name: u8,
    },
    /// Ask the service of a session for what it offers under an index.
    AskOffer {
        dst: u8,
        session: u8,
        index: u8,
    },
    /// Revoke a capability and everything made from it.
    Revoke {
        src: u8,
    },
    /// Bind an endpoint to a capability.
    Bind {
        ep: u8,
        src: u8,
    },
    /// Read through an endpoint.
    Read {
        ep: u8,
        off: u32,
        len: u32,
    },
    /// Write through an endpoint.
    Write {
        ep: u8,
        off: u32,
        len: u32,
    },
    /// Send a message of that length through an endpoint.
    Send {
        ep: u8,
        len: u32,
    },
    /// Take back the credit of the oldest message.
    Credit {
        ep: u8,
    },
    /// End the VPE.
    Exit,
    /// Revoke everything made from a capability, but keep the capability.
    Clear {
        src: u8,
    },
}
