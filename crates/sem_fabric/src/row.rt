ghost use Rattle.std.specs.Prelude.{◌≡◌, ◌↔◌, ◌<◌, ◌≤◌, [], ◌∷◌, ◌++◌, length, drop, nat_le};
ghost use Rattle.std.specs.Prelude.{replicate, slice_get, IsOk, IfOk, IfErr, IfSome, OnOk};
ghost use Rattle.sem_msg.specs.Message.{Fits};
ghost use Rattle.sem_fabric.specs.Links.{link_to, with_link_to};

use crate::link::Link;
use sem_key::OutOfMemory;
use sem_msg::Message;
use std::alloc::Global;
use std::marker::Model;

/// The links from one kernel, by receiver.
#[derive(Debug, Drop)]
pub struct Row {
    links: Vec<Link>,
    window: u32,
}

impl Model for Row {
    ghost use Rattle.std.specs.Prelude.{◌≡◌, map, All};
    ghost use Rattle.sem_fabric.specs.Links.{LinkRow};

    ghost Value = { LinkRow };

    ghost view = { λ r. record { links = map (λ l. l.messages) r.links.items; window = r.window } };

    ghost invariant = { λ r. All (λ l. l.window ≡ r.window) r.links.items };
}

impl Row {
    /// An empty link to each of that many kernels, with room for `window` messages each.
    pub fn new(alloc: Global, kernels: u32, window: u32) -> Result<Self, OutOfMemory>
        ensures { IfOk result (λ row. row ≡ record {
          links = replicate kernels [];
          window = window;
        }) }
    {
        let mut links = Vec::new(alloc);
        for _ in 0..kernels {
            links.push(Link::new(alloc, window)?)?;
        }
        Ok(Row { links, window })
    }

    /// The oldest message in a link; none if the link is empty.
    pub fn front(&self, to: u32) -> Option<Message>
        requires { to < length self.now.links }
        ensures front { result ≡ slice_get (link_to self.now to) 0 }
        ensures fits { IfSome result Fits }
    {
        self.links[to as usize].front()
    }

    /// Takes the oldest message out of a link; none if the link is empty.
    pub fn pop(&mut self, to: u32) -> Option<Message>
        requires { to < length self.old.links }
        ensures front { result ≡ slice_get (link_to self.old to) 0 }
        ensures value { self.new ≡ with_link_to to (drop 1 (link_to self.old to)) self.old }
        ensures fits { IfSome result Fits }
    {
        self.links[to as usize].pop()
    }

    /// Appends the message to a link; it comes back if the link is full.
    pub fn push(&mut self, to: u32, message: Message) -> Result<(), Message>
        requires to_kernel { to < length self.old.links }
        requires fits { Fits message }
        ensures variant { IsOk result ↔ (length (link_to self.old to) < self.old.window) }
        ensures ok { OnOk result (self.new
            ≡ with_link_to to (link_to self.old to ++ message ∷ []) self.old) }
        ensures err { IfErr result (λ back. (back ≡ message) × (self.new ≡ self.old)) }
    {
        self.links[to as usize].push(message)
    }

    /// Whether a link has no room for another message.
    pub fn is_full(&self, to: u32) -> bool
        requires { to < length self.now.links }
        ensures { result ≡ nat_le self.now.window (length (link_to self.now to)) }
    {
        self.links[to as usize].is_full()
    }

    /// How many messages a link holds.
    pub fn waiting(&self, to: u32) -> usize
        requires { to < length self.now.links }
        ensures count { result ≡ length (link_to self.now to) }
        ensures within { result ≤ self.now.window }
    {
        self.links[to as usize].waiting()
    }
}
