// The forests after each of some entries, told as the changes from one to the next.
use crate::nodes::nodes_of;
use crate::tracks::Tracks;
use crate::trees::{KEYS, key_count};
use sem_check::{Note, Noting, follow};
use sem_draw::{Node, State};
use sem_kernel::World;
use sem_key::OutOfMemory;
use sem_msg::{Entry, Journal, Setup};
use serde::{Described, Serialize};
use std::alloc::Global;

/// Why there are no forests.
#[derive(Clone, Copy, Debug, PartialEq, Eq)]
pub enum ForestsFault {
    /// The entry of this number is not the one that the machine makes.
    Wrong(usize),
    /// There would be that many keys, more than a forest may have.
    TooMany(usize),
    Memory,
}

impl From<OutOfMemory> for ForestsFault {
    fn from(_: OutOfMemory) -> ForestsFault {
        ForestsFault::Memory
    }
}

// A forest after that many entries: its new keys, and those with changed texts.
#[derive(Debug, Drop, Serialize)]
struct ForestLine {
    after: u64,
    keys: Vec<KeyLine>,
}

// A key, at its place among the made ones, below the one at the place of its parent.
#[derive(Debug, Drop, Serialize)]
struct KeyLine {
    place: u64,
    key: String,
    #[serde(skip_serializing_if = "Option::is_none")]
    parent: Option<u64>,
    state: &'static str,
    text: String,
}

/// The forest after the first `from` entries, and after each one up to `to`, a JSON object a line.
/// Each tells its new keys, and those that changed since the line before.
pub fn forest_lines(
    alloc: Global,
    setup: &Setup,
    journal: &Journal,
    from: usize,
    to: usize,
) -> Result<String, ForestsFault> {
    let entries = journal.as_slice();
    let to = to.min(entries.len());
    let keys = key_count(setup, &entries[..to]);
    if keys > KEYS {
        return Err(ForestsFault::TooMany(keys));
    }
    let mut world = World::boot(alloc, setup)?;
    let mut lines = ForestLines {
        alloc,
        journal,
        from,
        tracks: Tracks::start(alloc, setup)?,
        told: Vec::new(alloc),
        text: String::new(alloc),
    };
    lines.tell(setup, &world, 0)?;
    let mut noting = Noting(lines);
    match follow(setup, &mut world, &entries[..to], &mut noting)? {
        None => Ok(noting.0.text),
        Some(difference) => Err(ForestsFault::Wrong(difference.entry)),
    }
}

// The lines of the forests from some number of entries on, and the last forest that they tell.
#[derive(Drop)]
struct ForestLines<'a> {
    alloc: Global,
    journal: &'a Journal,
    from: usize,
    tracks: Tracks,
    told: Vec<Node>,
    text: String,
}

impl ForestLines<'_> {
    // Appends the line of the forest after the first `count` entries, which lead to the world,
    // unless the lines begin later.
    fn tell(&mut self, setup: &Setup, world: &World, count: usize) -> Result<(), OutOfMemory> {
        if count < self.from {
            return Ok(());
        }
        let alloc = self.alloc;
        let nodes = nodes_of(alloc, setup, self.journal, count, world, &self.tracks)?;
        push_changes(
            alloc,
            &mut self.text,
            count,
            self.told.as_slice(),
            nodes.as_slice(),
        )?;
        self.told = nodes;
        Ok(())
    }
}

impl Note for ForestLines<'_> {
    fn note(
        &mut self,
        setup: &Setup,
        world: &World,
        past: &[Entry],
        entry: &Entry,
    ) -> Result<(), OutOfMemory> {
        self.tracks.note(setup, world, past, entry)?;
        self.tell(setup, world, past.len().saturating_add(1))
    }
}

// Appends the line of a forest after another one.
fn push_changes(
    alloc: Global,
    out: &mut String,
    count: usize,
    old: &[Node],
    new: &[Node],
) -> Result<(), OutOfMemory> {
    let mut keys = Vec::new(alloc);
    for (place, node) in new.iter().enumerate() {
        if !old.get(place).is_some_and(|before| is_told(before, node)) {
            keys.push(key_line(alloc, place, node)?)?;
        }
    }
    let line = ForestLine {
        after: count as u64,
        keys,
    };
    match serde_json::to_string(alloc, &line) {
        Ok(text) => out.push_str(text.as_str())?,
        Err(_) => return Err(OutOfMemory),
    }
    out.push('\n')
}

// Whether the two nodes tell the same of their key.
fn is_told(before: &Node, node: &Node) -> bool {
    before.state == node.state && before.text.as_str() == node.text.as_str()
}

// The line of the node at a place.
fn key_line(alloc: Global, place: usize, node: &Node) -> Result<KeyLine, OutOfMemory> {
    Ok(KeyLine {
        place: place as u64,
        key: String::from_str(alloc, node.name.as_str())?,
        parent: node.parent.map(|parent| parent as u64),
        state: state_name(node.state),
        text: String::from_str(alloc, node.text.as_str())?,
    })
}

fn state_name(state: State) -> &'static str {
    match state {
        State::Held => "held",
        State::Marked => "marked",
        State::OnItsWay => "on its way",
        State::Gone => "gone",
    }
}
