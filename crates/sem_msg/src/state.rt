use crate::message::Target;
use sem_key::{Key, Object, Place};

/// A selector of a VPE.
#[derive(Clone, Copy, Debug, PartialEq, Eq)]
pub enum Slot {
    /// The selector holds nothing.
    Free,
    /// It holds the capability of that key.
    Held(Key),
    /// It is kept for a capability that a call asks for or is offered.
    Promised,
}

/// What a VPE is asked to consent to.
#[derive(Clone, Copy, Debug, PartialEq, Eq)]
pub enum Ask {
    /// To give a capability; the child would get that place.
    Obtain {
        place: Place,
        target: Target,
    },
    /// To take a capability, at that selector.
    Delegate {
        parent: Key,
        object: Object,
        sel: u8,
    },
}

/// Why a call of a VPE waits, or how it will go on.
#[derive(Clone, Copy, Debug, PartialEq, Eq)]
pub enum Parked {
    /// An asking call that waits for its answer.
    ObtainWait {
        number: u16,
        sel: u8,
    },
    /// Its answer has come, and the capability is to be installed.
    ObtainReady {
        key: Key,
        parent: Key,
        object: Object,
        sel: u8,
    },
    /// Its answer came, but was revoked before it was installed.
    ObtainCancelled,
    /// A delegate that waits for its answer.
    DelegateWait {
        parent: Key,
    },
    /// Its answer has come, and the grant is to be made.
    DelegateReady {
        parent: Key,
        key: Key,
    },
    /// A revoke or a clear that waits for a job.
    RevokeWait {
        job: u32,
    },
    /// The call ends with that code.
    Ready {
        code: u8,
    },
}

/// A delegation from another kernel that was accepted and is not acknowledged yet.
#[derive(Clone, Copy, Debug, PartialEq, Eq)]
pub struct Pending {
    pub key: Key,
    pub parent: Key,
    pub object: Object,
    pub sel: u8,
}

/// The job that waits for another job.
#[derive(Clone, Copy, Debug, PartialEq, Eq)]
pub enum Up {
    /// A job of the same kernel.
    Local { job: u32 },
    /// A job of another kernel.
    Remote { kernel: u32, job: u32 },
}
