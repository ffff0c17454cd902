ghost use Rattle.std.specs.Prelude.{◌≡◌, ◌+◌, ◌<◌, ◌≤◌, [], ◌∷◌, ◌++◌, length, drop, replicate};
ghost use Rattle.std.specs.Prelude.{slice_get, is_some, IfOk, IfSome, OnOk};
ghost use Rattle.sem_msg.specs.Message.{Fits};
ghost use Rattle.sem_msg.specs.Outboxes.{box_for, with_box};
ghost use Rattle.sem_msg.specs.Masks.{IsMaskOf};

use crate::bits::with_bit;
use crate::message::Message;
use crate::pool::{FREE, Pool};
use sem_key::OutOfMemory;
use std::alloc::Global;
use std::marker::Model;

// Room for that many messages beyond the need, so that not every message needs new nodes.
const SPARE_MESSAGES: usize = 8;

/// For each kernel the messages that wait to be sent to it, in order. All of them fit. Only `new`
/// and `room` take memory.
#[derive(Debug, Drop)]
pub struct Outboxes {
    pool: Pool,
    // At least that many nodes are free.
    spare: usize,
    // The kernels for which there are messages, a bit for each.
    filled: u32,
}

impl Model for Outboxes {
    ghost use Rattle.std.specs.Prelude.{◌≤◌, ◌<◌, drop, length};
    ghost use Rattle.sem_msg.specs.Outboxes.{OutboxList, box_for, AllFit, AreFilled};

    ghost Value = { OutboxList };

    ghost view = { λ o. record { boxes = drop 1 o.pool; spare = o.spare } };

    ghost invariant = { λ o. (0 < length o.pool) × (o.spare ≤ length (box_for o.pool 0))
        × AllFit (drop 1 o.pool) × AreFilled (drop 1 o.pool) o.filled };
}

// The number of the queue of a kernel: that of the free nodes comes first.
fn queue_of(kernel: u32) -> usize
    ensures { result ≡ kernel + 1 }
{
    kernel as usize + 1
}

impl Outboxes {
    /// An empty outbox for each of that many kernels.
    pub fn new(alloc: Global, kernels: u32) -> Result<Self, OutOfMemory>
        ensures { IfOk result (λ outs. outs.boxes ≡ replicate kernels []) }
    {
        Ok(Outboxes {
            pool: Pool::new(alloc, kernels as usize + 1)?,
            spare: 0,
            filled: 0,
        })
    }

    /// Makes room for `more` messages.
    pub fn room(&mut self, more: usize) -> Result<(), OutOfMemory>
        ensures room { OnOk result (more ≤ self.new.spare) }
        ensures boxes { self.new.boxes ≡ self.old.boxes }
        ensures spare { self.old.spare ≤ self.new.spare }
    {
        if more <= self.spare {
            return Ok(());
        }
        let wanted = more.saturating_add(SPARE_MESSAGES);
        self.pool.grow(wanted)?;
        self.spare = self.pool.len(FREE);
        Ok(())
    }

    /// Appends the message to those for a kernel. There must be room for it.
    pub fn send(&mut self, to: u32, message: Message)
        requires to_kernel { to < length self.old.boxes }
        requires fits { Fits message }
        requires spare { 0 < self.old.spare }
        ensures boxes { self.new.boxes
            ≡ with_box self.old.boxes to (box_for self.old.boxes to ++ message ∷ []) }
        ensures spare { self.new.spare + 1 ≡ self.old.spare }
    {
        self.pool.move_first(FREE, queue_of(to), &message);
        self.filled = with_bit(self.filled, to, true);
        self.spare -= 1;
    }

    /// The first message for a kernel; none if no message waits for it.
    pub fn front(&self, to: u32) -> Option<Message>
        requires { to < length self.now.boxes }
        ensures front { result ≡ slice_get (box_for self.now.boxes to) 0 }
        ensures fits { IfSome result Fits }
    {
        self.pool.front(queue_of(to))
    }

    /// Takes out the first message for a kernel; none if no message waits for it.
    pub fn pop(&mut self, to: u32) -> Option<Message>
        requires { to < length self.old.boxes }
        ensures front { result ≡ slice_get (box_for self.old.boxes to) 0 }
        ensures boxes { self.new.boxes
            ≡ with_box self.old.boxes to (drop 1 (box_for self.old.boxes to)) }
        ensures spare { self.new.spare ≡ self.old.spare }
        ensures fits { IfSome result Fits }
    {
        let queue = queue_of(to);
        let message = self.pool.front(queue)?;
        self.pool.move_first(queue, FREE, &message);
        self.filled = with_bit(self.filled, to, self.pool.len(queue) != 0);
        Some(message)
    }

    /// The kernels for which there are messages, a bit for each.
    pub fn filled(&self) -> u32
        ensures { IsMaskOf (λ to. is_some (slice_get (box_for self.now.boxes to) 0)) result }
    {
        self.filled
    }
}
