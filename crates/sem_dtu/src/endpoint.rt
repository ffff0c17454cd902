ghost use Rattle.std.specs.Prelude.{◌≡◌, [], ◌∷◌, Some, None, IfOk};
ghost use Rattle.std.specs.Option.{option_map};
ghost use Rattle.std.specs.Result.{result_err};
ghost use Rattle.std.specs.List.{list_any};
ghost use Rattle.sem_key.specs.KeyName.{key_eq};
ghost use Rattle.sem_key.specs.KeyList.{IsRising};
ghost use Rattle.sem_key.specs.ObjectRanges.{IsValidObject};
ghost use Rattle.sem_msg.specs.EndpointRows.{unbound_from};
ghost use Rattle.sem_dtu.specs.Stored.{IsMemoryOrGate};
ghost use Rattle.sem_dtu.specs.Uses.{fault_code, use_refusal, tried};

use crate::binding::Binding;
use crate::object_tests::{allows, are_credits_used, is_past_end, is_send_gate, refuse};
use crate::op::{Op, UseFault};
use circular_buffer::HeapCircularBuffer;
use sem_key::{Key, Object, OutOfMemory, SLOTS, pack, same_key};
use std::alloc::Global;
use std::marker::Model;

// The right to memory that an operation needs.
const READ: u8 = 1;

const WRITE: u8 = 2;

// What a VPE may use through one of its endpoints.
#[derive(Debug, Drop)]
pub struct Endpoint {
    binding: Option<Binding>,
    // The lengths of the messages that were sent and not yet credited, the oldest first. It has
    // room for all credits.
    ring: HeapCircularBuffer<u32>,
}

impl Model for Endpoint {
    ghost use Rattle.std.specs.Prelude.{◌≡◌, Option, IfSome};
    ghost use Rattle.std.specs.Option.{option_map};
    ghost use Rattle.sem_key.specs.declared.limits.TheConstants.{SLOTS};
    ghost use Rattle.sem_msg.specs.Rows.{Endpoint};
    ghost use Rattle.sem_dtu.specs.Stored.{bound_with, IsBound};

    ghost Value = { Option Endpoint };

    ghost view = { λ e. option_map (bound_with e.ring.items) e.binding };

    ghost invariant = { λ e. (e.ring.capacity ≡ SLOTS)
        × IfSome (option_map (bound_with e.ring.items) e.binding) IsBound };
}

impl Endpoint {
    // An unbound endpoint.
    pub fn new(alloc: Global) -> Result<Self, OutOfMemory>
        ensures { IfOk result (λ e. e ≡ None) }
    {
        Ok(Endpoint {
            binding: None,
            ring: HeapCircularBuffer::with_capacity(alloc, usize::from(SLOTS))?,
        })
    }

    // Binds it; an earlier binding is replaced. No message is under way then.
    pub fn bind(&mut self, key: Key, object: Object)
        requires kind { IsMemoryOrGate object }
        requires in_range { IsValidObject object }
        ensures { self.new ≡ Some (record { key = key; object = object; ring = [] }) }
    {
        self.ring.clear();
        self.binding = Some(Binding { key, object });
    }

    // Unbinds it, if it is bound to the key.
    pub fn unbind_from(&mut self, key: Key)
        ensures { self.new ≡ unbound_from (key ∷ []) self.old }
    {
        if self.key() == Some(key) {
            self.binding = None;
        }
    }

    // Unbinds it, if it is bound to one of the keys.
    pub fn unbind_from_all(&mut self, keys: &[Key])
        requires { IsRising keys.now }
        ensures { self.new ≡ unbound_from keys.now self.old }
    {
        if let Some(key) = self.key() {
            if has_key(keys, key) {
                self.binding = None;
            }
        }
    }

    // The key that it is bound to.
    pub fn key(&self) -> Option<Key>
        ensures { result ≡ option_map (λ e. e.key) self.now }
    {
        match &self.binding {
            Some(binding) => Some(binding.key),
            None => None,
        }
    }

    pub fn bound(&self) -> Option<(Key, Object)>
        ensures { result ≡ option_map (λ e. (e.key, e.object)) self.now }
    {
        match &self.binding {
            Some(binding) => Some((binding.key, binding.object)),
            None => None,
        }
    }

    // Why it refuses the operation, if it does.
    fn test(&self, op: Op) -> Result<(), UseFault>
        ensures { option_map fault_code (result_err result) ≡ use_refusal op self.now }
    {
        let Some(binding) = &self.binding else {
            return Err(UseFault::Unbound);
        };
        let object = &binding.object;
        let sent = self.ring.len();
        match op {
            Op::Read { off, len } => refuse(allows(object, READ), is_past_end(object, off, len)),
            Op::Write { off, len } => refuse(allows(object, WRITE), is_past_end(object, off, len)),
            Op::Send { .. } => refuse(is_send_gate(object), are_credits_used(object, sent)),
            Op::Credit => refuse(is_send_gate(object), sent == 0),
        }
    }

    // Does the operation, unless it is refused; a refusal changes nothing.
    pub fn operate(&mut self, op: Op) -> Result<(), UseFault>
        ensures refusal { option_map fault_code (result_err result) ≡ use_refusal op self.old }
        ensures tried { self.new ≡ tried op self.old }
    {
        self.test(op)?;
        match op {
            Op::Read { .. } | Op::Write { .. } => {}
            Op::Send { len } => {
                self.ring.push_back(len);
            }
            Op::Credit => {
                self.ring.pop_front();
            }
        }
        Ok(())
    }
}

// Whether the key is one of these rising keys.
fn has_key(keys: &[Key], key: Key) -> bool
    requires { IsRising keys.now }
    ensures { result ≡ list_any (key_eq key) keys.now }
{
    match keys.binary_search_by_key(&pack(key), |other| pack(*other)) {
        Ok(at) => same_key(&keys[at], &key),
        Err(_) => false,
    }
}
