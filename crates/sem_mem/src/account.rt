use crate::memory::Memory;
use sem_access::Access;

/// What memory holds after some accesses, and the lines of the reads among them. Only `after` takes
/// memory.
#[derive(Debug, Drop)]
pub struct Account {
    pub memory: Memory,
    pub lines: Vec<u8>,
    /// What the next entry reads or writes, if it is the one that its event makes.
    pub next: Option<Access>,
}
