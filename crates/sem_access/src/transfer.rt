ghost use Rattle.std.specs.Prelude.{◌≡◌, ◌<◌, IfSome};
ghost use Rattle.sem_msg.specs.declared.limits.TheConstants.{ENDPOINTS as ENDPOINTS_SPEC};
ghost use Rattle.sem_access.specs.Accesses.{base_of as base_of_spec};
ghost use Rattle.sem_access.specs.Accesses.{is_answered_at_once as is_answered_at_once_spec};
ghost use Rattle.sem_access.specs.Transfers.{transfer_through as transfer_through_spec};
ghost use Rattle.sem_access.specs.Transfers.{call_transfer as call_transfer_spec};
ghost use Rattle.sem_access.specs.Transfers.{transfer_of as transfer_of_spec, transferred};

use crate::Access;
use sem_key::{Key, Object};
use sem_msg::{Act, Call, Detail, ENDPOINTS, Entry};

/// A read or a write through an endpoint that succeeded.
#[derive(Clone, Copy, Debug, PartialEq, Eq)]
pub struct Transfer {
    pub vpe: u16,
    /// The endpoint, at most 15.
    pub ep: u8,
    /// Whether it writes.
    pub write: bool,
    /// The offset in the memory at which it begins.
    pub off: u32,
    /// How many bytes.
    pub len: u32,
}

impl Transfer {
    /// The access of this transfer, by the entry at that place. The endpoint must be bound to the
    /// key, and the key's capability must have had that object.
    pub fn access(&self, place: u64, key: Key, object: &Object) -> Access
        ensures { result ≡ transferred place self.now key object.now }
    {
        Access {
            entry: place,
            vpe: self.vpe,
            key,
            write: self.write,
            base: u64::from(base_of(object)) + u64::from(self.off),
            len: self.len,
        }
    }
}

/// The read or the write that the entry tells, if its call succeeded at once.
pub fn transfer_of(entry: &Entry) -> Option<Transfer>
    ensures transfer { result ≡ transfer_of_spec entry.now }
    ensures ep { IfSome result (λ t. t.ep < ENDPOINTS_SPEC) }
{
    if !is_answered_at_once(entry) {
        return None;
    }
    match (entry.event.act, entry.detail) {
        (Act::Call { vpe }, Detail::Called { call, .. }) => call_transfer(vpe, call),
        _ => None,
    }
}

// Whether the entry tells that its call succeeded.
fn is_answered_at_once(entry: &Entry) -> bool
    ensures { result ≡ is_answered_at_once_spec entry.now }
{
    match entry.reply {
        Some(reply) => reply.code == 0,
        None => false,
    }
}

// What the call of the VPE reads or writes.
fn call_transfer(vpe: u16, call: Call) -> Option<Transfer>
    ensures transfer { result ≡ call_transfer_spec vpe call }
    ensures ep { IfSome result (λ t. t.ep < ENDPOINTS_SPEC) }
{
    match call {
        Call::Read { ep, off, len } => transfer_through(vpe, ep, false, off, len),
        Call::Write { ep, off, len } => transfer_through(vpe, ep, true, off, len),
        _ => None,
    }
}

// The transfer through the endpoint, if there is one.
fn transfer_through(vpe: u16, ep: u8, write: bool, off: u32, len: u32) -> Option<Transfer>
    ensures transfer { result ≡ transfer_through_spec vpe ep write off len }
    ensures ep { IfSome result (λ t. t.ep < ENDPOINTS_SPEC) }
{
    if usize::from(ep) < ENDPOINTS {
        Some(Transfer {
            vpe,
            ep,
            write,
            off,
            len,
        })
    } else {
        None
    }
}

// The first address of a memory.
fn base_of(object: &Object) -> u32
    ensures { result ≡ base_of_spec object.now }
{
    match object {
        Object::Mem { base, .. } => *base,
        _ => 0,
    }
}
