ghost use Rattle.std.specs.Prelude.{◌≡◌};
ghost use Rattle.sem_msg.specs.Message.{target_vpe};

use sem_key::{Key, Object, Place};

/// What an obtain asks for.
#[derive(Clone, Copy, Debug, PartialEq, Eq)]
pub enum Target {
    /// The capability at a selector of a VPE.
    Sel { vpe: u16, sel: u8 },
    /// A session with the service of that key.
    Serv { service: Key },
    /// What the service of that key offers under an index.
    Offer { service: Key, index: u8 },
}

impl Target {
    /// The VPE that is asked: the named one, or that of the service.
    pub fn vpe(&self) -> u16
        ensures { result ≡ target_vpe self.now }
    {
        match self {
            Target::Sel { vpe, .. } => *vpe,
            Target::Serv { service } | Target::Offer { service, .. } => service.vpe,
        }
    }
}

/// A message from one kernel to another.
#[derive(Clone, Copy, Debug, PartialEq, Eq)]
pub enum Message {
    /// A VPE asks for a capability; the child would get that place.
    ObtainReq {
        place: Place,
        target: Target,
    },
    /// The request is granted.
    ObtainOk {
        parent: Key,
        key: Key,
        object: Object,
    },
    /// The request is refused, with a code from 1 to 15.
    ObtainNo {
        place: Place,
        code: u8,
    },
    /// A VPE offers a capability to another VPE, for that selector.
    DelegateReq {
        parent: Key,
        object: Object,
        vpe: u16,
        sel: u8,
    },
    /// The offer is accepted; the child would get that key.
    DelegatePrepared {
        parent: Key,
        key: Key,
    },
    /// The offer is refused, with a code from 1 to 15.
    DelegateNo {
        parent: Key,
        code: u8,
    },
    /// Whether the accepted delegation holds.
    Ack {
        key: Key,
        yes: bool,
    },
    /// The child was granted to a VPE that is dead.
    Orphan {
        parent: Key,
        key: Key,
    },
    /// The receiver is to revoke the child, for a job of the sender.
    RevokeReq {
        key: Key,
        job: u32,
    },
    /// All that the receiver's job asked for is revoked.
    RevokeDone {
        job: u32,
    },
    /// The child is gone, and its parent did not cause it.
    Unlink {
        parent: Key,
        key: Key,
    },
}
