// Queues of messages whose nodes lie in one list, so that a node that one queue gives back serves
// any other. The queue 0 has the free nodes.
ghost use Rattle.std.specs.Prelude.{◌≡◌, ◌≢◌, ◌+◌, ◌<◌, ◌≤◌, [], ◌∷◌, ◌++◌, length, drop};
ghost use Rattle.std.specs.Prelude.{replicate, slice_get, IfOk, OnOk};
ghost use Rattle.sem_msg.specs.Outboxes.{box_for, with_box};
ghost use Rattle.sem_msg.specs.declared.pool.Link.TheVariants.{To};
ghost use Rattle.sem_msg.specs.Queues.{AreQueues, IsLoose, all_messages, node_at, queue_at, total};

use crate::message::Message;
use crate::reserved;
use sem_key::OutOfMemory;
use std::alloc::Global;
use std::marker::Model;

// A link leads to a node, or to the end of the queue of that number. Since an end names its queue,
// following the links tells in which queue a node is, so no node can be in two.
#[derive(Clone, Copy, Debug)]
enum Link {
    To(usize),
    End(usize),
}

#[derive(Clone, Copy, Debug)]
struct Node {
    message: Message,
    next: Link,
}

// An empty queue has no `last`.
#[derive(Clone, Copy, Debug)]
struct Queue {
    first: Link,
    last: usize,
    len: usize,
}

// The number of the queue of free nodes.
pub const FREE: usize = 0;

#[derive(Debug, Drop)]
pub struct Pool {
    nodes: Vec<Node>,
    queues: Vec<Queue>,
}

impl Model for Pool {
    ghost use Rattle.std.specs.Prelude.{List, ◌≤◌, length};
    ghost use Rattle.sem_msg.specs.declared.message.Message.{Message};
    ghost use Rattle.sem_msg.specs.Queues.{AreQueues, all_messages, total};

    ghost Value = { List (List Message) };

    ghost view = { λ p. all_messages p.nodes.items p.queues.items };

    ghost invariant = { λ p. AreQueues p.nodes.items p.queues.items
        × (total p.queues.items ≤ length p.nodes.items) };
}

impl Pool {
    // That many empty queues.
    pub fn new(alloc: Global, queues: usize) -> Result<Self, OutOfMemory>
        ensures { IfOk result (λ pool. pool ≡ replicate queues []) }
    {
        let mut empty = Vec::new(alloc);
        for queue in 0..queues {
            empty.push(Queue {
                first: Link::End(queue),
                last: 0,
                len: 0,
            })?;
        }
        Ok(Pool {
            nodes: Vec::new(alloc),
            queues: empty,
        })
    }

    pub fn len(&self, queue: usize) -> usize
        requires { queue < length self.now }
        ensures { result ≡ length (box_for self.now queue) }
    {
        self.queues[queue].len
    }

    // The first message of a queue.
    pub fn front(&self, queue: usize) -> Option<Message>
        requires { queue < length self.now }
        ensures { result ≡ slice_get (box_for self.now queue) 0 }
    {
        match self.queues[queue].first {
            Link::To(at) => Some(self.nodes[at].message),
            Link::End(_) => None,
        }
    }

    // Moves the first node of a queue to the end of another one, where it has that message.
    pub fn move_first(&mut self, from: usize, to: usize, message: &Message)
        requires from { from < length self.old }
        requires to { to < length self.old }
        requires apart { from ≢ to }
        requires some { 0 < length (box_for self.old from) }
        ensures { self.new
            ≡ with_box (with_box self.old from (drop 1 (box_for self.old from)))
            to (box_for self.old to ++ message.now ∷ []) }
    {
        if let Link::To(at) = self.queues[from].first {
            take_first(&mut self.nodes, &mut self.queues, from, at, to, *message);
            put_last(&mut self.nodes, &mut self.queues, to, at);
        }
    }

    // Makes nodes until that many are free.
    pub fn grow(&mut self, len: usize) -> Result<(), OutOfMemory>
        requires { 0 < length self.old }
        ensures enough { OnOk result (len ≤ length (box_for self.new 0)) }
        ensures kept { length (box_for self.old 0) ≤ length (box_for self.new 0) }
        ensures others { drop 1 self.new ≡ drop 1 self.old }
        ensures queues { length self.new ≡ length self.old }
    {
        let free = self.len(FREE);
        self.nodes.reserve(len.saturating_sub(free))?;
        for _ in free..len {
            self.add()?;
        }
        Ok(())
    }

    // One more free node.
    fn add(&mut self) -> Result<(), OutOfMemory>
        requires { 0 < length self.old }
        ensures more { OnOk result (length (box_for self.old 0) < length (box_for self.new 0)) }
        ensures kept { length (box_for self.old 0) ≤ length (box_for self.new 0) }
        ensures others { drop 1 self.new ≡ drop 1 self.old }
        ensures queues { length self.new ≡ length self.old }
    {
        self.nodes.reserve(1)?;
        let at = self.nodes.len();
        let node = Node {
            message: Message::RevokeDone { job: 0 },
            next: Link::End(FREE),
        };
        reserved::push(&mut self.nodes, &node);
        put_last(&mut self.nodes, &mut self.queues, FREE, at);
        Ok(())
    }
}

// Takes out the first node of a queue. The node gets that message, and its link leads to the end
// of the queue `to`, which it can join.
fn take_first(
    nodes: &mut Vec<Node>,
    queues: &mut Vec<Queue>,
    from: usize,
    at: usize,
    to: usize,
    message: Message,
)
    requires queues { AreQueues nodes.old.items queues.old.items }
    requires from { from < length queues.old.items }
    requires first { (queue_at queues.old.items from).first ≡ To at }
    requires to { to < length queues.old.items }
    requires apart { from ≢ to }
    ensures queues { AreQueues nodes.new.items queues.new.items }
    ensures messages { all_messages nodes.new.items queues.new.items
        ≡ with_box (all_messages nodes.old.items queues.old.items) from
        (drop 1 (box_for (all_messages nodes.old.items queues.old.items) from)) }
    ensures total { total queues.new.items + 1 ≡ total queues.old.items }
    ensures len { length queues.new.items ≡ length queues.old.items }
    ensures nodes { length nodes.new.items ≡ length nodes.old.items }
    ensures loose { IsLoose nodes.new.items queues.new.items to at }
    ensures message { (node_at nodes.new.items at).message ≡ message }
{
    let queue = queues[from];
    queues[from] = Queue {
        first: nodes[at].next,
        last: queue.last,
        len: queue.len - 1,
    };
    nodes[at] = Node {
        message,
        next: Link::End(to),
    };
}

// Makes a node the last of the queue to whose end its link leads.
fn put_last(nodes: &mut Vec<Node>, queues: &mut Vec<Queue>, to: usize, at: usize)
    requires queues { AreQueues nodes.old.items queues.old.items }
    requires to { to < length queues.old.items }
    requires total { total queues.old.items < length nodes.old.items }
    requires loose { IsLoose nodes.old.items queues.old.items to at }
    ensures queues { AreQueues nodes.new.items queues.new.items }
    ensures messages { all_messages nodes.new.items queues.new.items
        ≡ with_box (all_messages nodes.old.items queues.old.items) to
        (box_for (all_messages nodes.old.items queues.old.items) to
        ++ (node_at nodes.old.items at).message ∷ []) }
    ensures total { total queues.new.items ≡ total queues.old.items + 1 }
    ensures nodes { length nodes.new.items ≡ length nodes.old.items }
{
    let queue = queues[to];
    if queue.len == 0 {
        queues[to] = Queue {
            first: Link::To(at),
            last: at,
            len: 1,
        };
    } else {
        nodes[queue.last].next = Link::To(at);
        queues[to] = Queue {
            first: queue.first,
            last: at,
            len: queue.len + 1,
        };
    }
}
