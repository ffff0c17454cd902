use sem_caps::Caps;
use sem_delegate::Pendings;
use sem_dtu::Dtus;
use sem_jobs::{Jobs, Scratch};
use sem_key::Key;
use sem_msg::{Message, Outboxes};
use sem_park::Park;
use sem_vpe::Vpes;

/// What one kernel keeps, each kind in its own store, and working space for its steps.
#[derive(Debug, Drop)]
pub struct Stores {
    pub caps: Caps,
    pub vpes: Vpes,
    pub dtus: Dtus,
    pub park: Park,
    pub pendings: Pendings,
    pub jobs: Jobs,
    pub inbox: Option<(u32, Message)>,
    pub outs: Outboxes,
    pub scratch: Scratch,
    /// The keys of a VPE that is ending.
    pub ended: Vec<Key>,
}
