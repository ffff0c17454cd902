// Nodes, each after its parent, and the walk through them.
use crate::OutOfMemory;
use std::alloc::Global;

/// What has become of a node.
#[derive(Clone, Copy, Debug, PartialEq, Eq)]
pub enum State {
    Held,
    Marked,
    OnItsWay,
    Gone,
}

/// A node of a forest: the place of its parent among the earlier nodes, or none for a root; its
/// name, the text about it, the text that an SVG picture shows under the pointer, and what has
/// become of it.
#[derive(Debug, Drop)]
pub struct Node {
    pub parent: Option<usize>,
    pub name: String,
    pub text: String,
    pub hint: String,
    pub state: State,
}

/// A step of the walk: the place of the node, how many nodes are above it, and whether it is the
/// last child of its parent.
#[derive(Clone, Copy, Debug)]
pub struct Visit {
    pub node: usize,
    pub depth: usize,
    pub is_last: bool,
}

// The first child of each node and the next child of its parent, by places; the first root comes
// last in `first`.
#[derive(Drop)]
struct Links {
    first: Vec<Option<usize>>,
    next: Vec<Option<usize>>,
}

/// The nodes in the order of the walk: each after its parent, and children in the order of the
/// nodes. A node whose parent does not come before it is a root.
pub fn walk(alloc: Global, nodes: &[Node]) -> Result<Vec<Visit>, OutOfMemory> {
    let links = linked(alloc, nodes)?;
    let mut visits = Vec::new(alloc);
    let mut open = Vec::new(alloc);
    if let Some(Some(root)) = links.first.last() {
        open.push((*root, 0usize))?;
    }
    for _ in 0..nodes.len() {
        let Some((node, depth)) = open.pop() else {
            break;
        };
        let next = links.next.get(node).copied().flatten();
        let first = links.first.get(node).copied().flatten();
        visits.push(Visit {
            node,
            depth,
            is_last: next.is_none(),
        })?;
        if let Some(next) = next {
            open.push((next, depth))?;
        }
        if let Some(first) = first {
            open.push((first, depth.saturating_add(1)))?;
        }
    }
    Ok(visits)
}

fn linked(alloc: Global, nodes: &[Node]) -> Result<Links, OutOfMemory> {
    let count = nodes.len();
    let mut first = Vec::new(alloc);
    let mut next = Vec::new(alloc);
    for _ in 0..count {
        first.push(None)?;
        next.push(None)?;
    }
    first.push(None)?;
    for (place, node) in nodes.iter().enumerate().rev() {
        let above = match node.parent {
            Some(parent) if parent < place => parent,
            _ => count,
        };
        let behind = first.get(above).copied().flatten();
        if let Some(link) = next.get_mut(place) {
            *link = behind;
        }
        if let Some(link) = first.get_mut(above) {
            *link = Some(place);
        }
    }
    Ok(Links { first, next })
}
