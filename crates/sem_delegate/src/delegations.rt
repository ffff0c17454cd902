use sem_key::{Key, Object};

/// What a delegate offers, and to which VPE: a child of the capability `parent`, with its object,
/// to stand at the selector `sel` of the VPE.
#[derive(Clone, Copy, Debug)]
pub(crate) struct Delegation {
    pub vpe: u16,
    pub parent: Key,
    pub object: Object,
    pub sel: u8,
}
