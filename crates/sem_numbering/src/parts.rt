ghost use Rattle.std.specs.Prelude.{◌≡◌, ◌↔◌, ◌+◌, ◌≤◌, ◌<◌, ◌^◌, ◌∷◌, ◌++◌, [], All, Contains};
ghost use Rattle.std.specs.Prelude.{length, map, slice_get, slice_index_or, Some, false, IsTrue};
ghost use Rattle.std.specs.Prelude.{IfOk, IfSome, IfNone, OnOk, OnErr};
ghost use Rattle.sem_msg.specs.declared.entry.Entry.{Entry as EntryData};
ghost use Rattle.sem_machine.specs.Schedules.{carried_in};
ghost use Rattle.sem_numbering.specs.Nodes.{IsMadeBy, IsNodeAt, IsFoundPart, HasNoNode, HasMore};

use sem_key::OutOfMemory;
use sem_msg::{Act, Detail, Entry, Event, Message, same_message};
use std::alloc::Global;
use std::marker::Model;

/// The parts that a kernel has in the histories of a search, by number. Part 0 is empty. Every
/// other part is a node: the number of the part that is one entry shorter, and that entry. Only
/// `new` and `push` take memory.
#[derive(Debug, Drop)]
pub struct PartTree {
    // The nodes. The part of a node has the number after its place.
    nodes: Vec<(u32, Entry)>,
    // For each part, the places of the nodes that go on from it, and maybe others.
    children: Vec<Vec<u32>>,
}

impl Model for PartTree {
    ghost use Rattle.std.specs.Prelude.{List, map};
    ghost use Rattle.sem_numbering.specs.Nodes.{Node, AreChildren};

    ghost Value = { List Node };

    ghost view = { λ t. t.nodes.items };

    ghost invariant = { λ t. AreChildren t.nodes.items (map (λ c. c.items) t.children.items) };
}

impl PartTree {
    /// The tree with only the empty part.
    pub fn new(alloc: Global) -> Result<Self, OutOfMemory>
        ensures { IfOk result (λ tree. tree ≡ []) }
    {
        let mut children = Vec::new(alloc);
        children.push(Vec::new(alloc))?;
        Ok(PartTree {
            nodes: Vec::new(alloc),
            children,
        })
    }

    /// The number of the part that goes on from that one by an entry of the event, with that
    /// message if it is a fetch; none if there is no such part.
    pub fn find(&self, from: u32, event: Event, message: &Option<Message>) -> Option<u32>
        requires { from ≤ length self.now }
        ensures there { IfSome result (IsFoundPart self.now from event message.now) }
        ensures none { IfNone result (HasNoNode self.now from event message.now) }
    {
        let children = &self.children[from as usize];
        find_node(
            self.nodes.as_slice(),
            children.as_slice(),
            from,
            event,
            message,
        )
    }

    /// Adds the part that goes on from that one by the entry, and returns its number.
    pub fn push(&mut self, alloc: Global, from: u32, entry: &Entry) -> Result<u32, OutOfMemory>
        requires { from ≤ length self.old }
        ensures number { IfOk result (λ number. number ≡ length self.new) }
        ensures added { IfOk result (λ number. self.new ≡ self.old ++ (from, entry.now) ∷ []) }
        ensures err { OnErr result (self.new ≡ self.old) }
    {
        let place = next_place(self.nodes.as_slice())?;
        add_part(alloc, &mut self.children)?;
        add_child(&mut self.children, from, place)?;
        self.nodes.push((from, *entry))?;
        Ok(place + 1)
    }
}

// The place of the next node, unless there are too many.
fn next_place(nodes: &[(u32, Entry)]) -> Result<u32, OutOfMemory>
    ensures place { IfOk result (λ place. place ≡ length nodes.now) }
    ensures few { IfOk result (λ place. place + 1 < 2 ^ 32) }
{
    let place = nodes.len();
    if place < u32::MAX as usize {
        Ok(place as u32)
    } else {
        Err(OutOfMemory)
    }
}

// Adds a part without children.
fn add_part(alloc: Global, children: &mut Vec<Vec<u32>>) -> Result<(), OutOfMemory>
    ensures kept { HasMore (map (λ c. c.items) children.old.items)
        (map (λ c. c.items) children.new.items) }
    ensures long { OnOk result
        (length children.old.items < length children.new.items) }
{
    children.push(Vec::new(alloc))?;
    Ok(())
}

// Adds a child to those of the part.
fn add_child(children: &mut Vec<Vec<u32>>, from: u32, place: u32) -> Result<(), OutOfMemory>
    requires { from < length children.old.items }
    ensures kept { HasMore (map (λ c. c.items) children.old.items)
        (map (λ c. c.items) children.new.items) }
    ensures there { OnOk result
        (Contains (slice_index_or (map (λ c. c.items) children.new.items) from []) place) }
{
    children[from as usize].push(place)?;
    Ok(())
}

// The number of the part of a node at one of the places. The node goes on from that part by an
// entry of the event, with that message if it is a fetch.
fn find_node(
    nodes: &[(u32, Entry)],
    places: &[u32],
    from: u32,
    event: Event,
    message: &Option<Message>,
) -> Option<u32>
    requires { length nodes.now < 2 ^ 32 }
    ensures there { IfSome result (IsFoundPart nodes.now from event message.now) }
    ensures none { IfNone result (All (λ k. (e : EntryData) → IsMadeBy event message.now e
        → slice_get nodes.now k ≡ Some (from, e) → ⊥) places.now) }
{
    for place in places {
        if is_node(nodes, *place, from, event, message) {
            return Some(*place + 1);
        }
    }
    None
}

// Whether the node at that place goes on from that part by an entry of the event, with that message
// if it is a fetch.
fn is_node(
    nodes: &[(u32, Entry)],
    place: u32,
    from: u32,
    event: Event,
    message: &Option<Message>,
) -> bool
    ensures yes { IsTrue result → IsNodeAt nodes.now from event message.now place }
    ensures no { result ≡ false → (e : EntryData) → IsMadeBy event message.now e
        → slice_get nodes.now place ≡ Some (from, e) → ⊥ }
{
    match nodes.get(place as usize) {
        Some(node) => node.0 == from && is_made_by(&node.1, event, message),
        None => false,
    }
}

// Whether the entry is one of the event, and carries that message if it is a fetch.
fn is_made_by(entry: &Entry, event: Event, message: &Option<Message>) -> bool
    ensures { IsTrue result ↔ IsMadeBy event message.now entry.now }
{
    entry.event == event && same_input(&carried(entry), message)
}

// The message that the entry brings, if it is a fetch.
fn carried(entry: &Entry) -> Option<Message>
    ensures { result ≡ carried_in entry.now.event.act entry.now.detail }
{
    match entry.event.act {
        Act::Fetch { .. } => match entry.detail {
            Detail::Carried { message, .. } => Some(message),
            _ => None,
        },
        _ => None,
    }
}

// Whether both are the same message, or both none.
fn same_input(one: &Option<Message>, other: &Option<Message>) -> bool
    ensures { IsTrue result ↔ (one.now ≡ other.now) }
{
    match one {
        Some(message) => match other {
            Some(other) => same_message(message, other),
            None => false,
        },
        None => other.is_none(),
    }
}
