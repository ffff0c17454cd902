ghost use Rattle.std.specs.Prelude.{◌≡◌, ◌↔◌, ◌<◌, ◌≤◌, [], ◌∷◌, ◌++◌, length, drop, nat_le};
ghost use Rattle.std.specs.Prelude.{slice_get, Some, IsOk, IfOk, IfErr, IfSome, OnOk};
ghost use Rattle.sem_msg.specs.Message.{Fits};
ghost use Rattle.sem_wire.specs.MessageOfBytes.{message_of as message_of_spec, IsRecord};
ghost use Rattle.sem_fabric.specs.Links.{relined};

use circular_buffer::HeapCircularBuffer;
use sem_key::OutOfMemory;
use sem_msg::Message;
use sem_wire::{RECORD, decode, encode};
use std::alloc::Global;
use std::marker::Model;

/// The messages on their way from one kernel to another, the oldest first, each kept as its record.
#[derive(Debug, Drop)]
pub struct Link {
    records: HeapCircularBuffer<[u8; RECORD]>,
}

impl Model for Link {
    ghost use Rattle.std.specs.Prelude.{map, All};
    ghost use Rattle.sem_wire.specs.MessageOfBytes.{message_of, IsRecord};
    ghost use Rattle.sem_fabric.specs.Links.{LinkList};

    ghost Value = { LinkList };

    ghost view = { λ l. record {
      messages = map message_of l.records.items;
      window = l.records.capacity;
    } };

    ghost invariant = { λ l. All IsRecord l.records.items };
}

// The message whose record the bytes are.
fn message_of(bytes: &[u8; RECORD]) -> Option<Message>
    requires { IsRecord bytes.now }
    ensures { result ≡ Some (message_of_spec bytes.now) }
{
    match decode(bytes) {
        Ok(message) => Some(message),
        Err(_) => None,
    }
}

impl Link {
    /// An empty link with room for `window` messages.
    pub fn new(alloc: Global, window: u32) -> Result<Self, OutOfMemory>
        ensures { IfOk result (λ link. link ≡ record { messages = []; window = window }) }
    {
        Ok(Link {
            records: HeapCircularBuffer::with_capacity(alloc, window as usize)?,
        })
    }

    /// The oldest message; none if the link is empty.
    pub fn front(&self) -> Option<Message>
        ensures front { result ≡ slice_get self.now.messages 0 }
        ensures fits { IfSome result Fits }
    {
        let bytes = self.records.front()?;
        message_of(bytes)
    }

    /// Takes out the oldest message; none if the link is empty.
    pub fn pop(&mut self) -> Option<Message>
        ensures front { result ≡ slice_get self.old.messages 0 }
        ensures value { self.new ≡ relined (drop 1 self.old.messages) self.old }
        ensures fits { IfSome result Fits }
    {
        let bytes = self.records.pop_front()?;
        message_of(&bytes)
    }

    /// Appends the message; it comes back if the link is full.
    pub fn push(&mut self, message: Message) -> Result<(), Message>
        requires { Fits message }
        ensures variant { IsOk result ↔ (length self.old.messages < self.old.window) }
        ensures ok { OnOk result (self.new ≡ relined (self.old.messages ++ message ∷ []) self.old) }
        ensures err { IfErr result (λ back. (back ≡ message) × (self.new ≡ self.old)) }
    {
        match self.records.try_push_back(encode(&message)) {
            Ok(()) => Ok(()),
            Err(_) => Err(message),
        }
    }

    /// Whether there is no room for another message.
    pub fn is_full(&self) -> bool
        ensures { result ≡ nat_le self.now.window (length self.now.messages) }
    {
        self.records.capacity() <= self.records.len()
    }

    /// How many messages there are.
    pub fn waiting(&self) -> usize
        ensures count { result ≡ length self.now.messages }
        ensures within { result ≤ self.now.window }
    {
        self.records.len()
    }
}
