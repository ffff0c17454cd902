// The rows of a forest as drawable nodes.
use crate::clears::clear_of;
use crate::places::Places;
use crate::rows::{TreeRow, tree_rows};
use crate::standings::{Hold, hold_of};
use crate::takings::takings;
use crate::tracks::Tracks;
use sem_draw::{LEVELS, Node, State};
use sem_hint::{cause_text, key_text, object_text};
use sem_kernel::World;
use sem_key::{Key, Object, OutOfMemory, same_key};
use sem_msg::{ENDPOINTS, Entry, Journal, Setup};
use std::alloc::Global;

/// The nodes of the forest after the first `count` entries of a journal, which lead to the world.
pub fn nodes_of(
    alloc: Global,
    setup: &Setup,
    journal: &Journal,
    count: usize,
    world: &World,
    tracks: &Tracks,
) -> Result<Vec<Node>, OutOfMemory> {
    let entries = journal.as_slice();
    let entries = &entries[..count.min(entries.len())];
    let rows = tree_rows(alloc, setup, journal, count)?;
    let places = Places::of_rows(alloc, rows.as_slice())?;
    let taken = takings(alloc, rows.as_slice(), &places, entries)?;
    let mut depths: Vec<usize> = Vec::new(alloc);
    let mut nodes = Vec::new(alloc);
    for (place, row) in rows.iter().enumerate() {
        let parent = row.parent.and_then(|parent| places.of(parent));
        let depth = depth_below(depths.as_slice(), parent);
        let hold = hold_of(world, setup, row.key);
        let taker = taken.get(place).copied().flatten();
        let state = state_of(row.key, hold, tracks);
        let mut text = place_text(alloc, setup, row.key, state, hold)?;
        push_endpoints(alloc, &mut text, row.key, world)?;
        push_cause(alloc, &mut text, entries, row.key, state, taker)?;
        push_object(alloc, &mut text, tracks.objects.get(place))?;
        push_deep(alloc, &mut text, row, depth)?;
        nodes.push(Node {
            parent,
            name: key_text(alloc, &row.key)?,
            text,
            hint: hint_text(alloc, row.key)?,
            state,
        })?;
        depths.push(depth)?;
    }
    Ok(nodes)
}

// How to ask for the life of a key.
fn hint_text(alloc: Global, key: Key) -> Result<String, OutOfMemory> {
    let key = key_text(alloc, &key)?;
    format!(in alloc; "semper-view story {key}")
}

// How many nodes are above one with that parent.
fn depth_below(depths: &[usize], parent: Option<usize>) -> usize {
    match parent.and_then(|place| depths.get(place)) {
        Some(depth) => depth.saturating_add(1),
        None => 0,
    }
}

// Appends what a key was made from, if the key is deeper than text shows.
fn push_deep(
    alloc: Global,
    text: &mut String,
    row: &TreeRow,
    depth: usize,
) -> Result<(), OutOfMemory> {
    if depth > LEVELS
        && let Some(parent) = row.parent
    {
        text.push_str("; made from ")?;
        text.push_str(key_text(alloc, &parent)?.as_str())?;
    }
    Ok(())
}

// The state of a key, by who holds it.
fn state_of(key: Key, hold: Option<Hold>, tracks: &Tracks) -> State {
    match hold {
        Some(hold) if hold.is_marked => State::Marked,
        Some(_) => State::Held,
        None if tracks.is_on_its_way(key) => State::OnItsWay,
        None => State::Gone,
    }
}

// The state of a key, its holder, and the selector.
fn place_text(
    alloc: Global,
    setup: &Setup,
    key: Key,
    state: State,
    hold: Option<Hold>,
) -> Result<String, OutOfMemory> {
    let vpe = key.vpe;
    let kernel = setup.kernel_of(vpe);
    let words = match state {
        State::Held => "held by",
        State::Marked => "marked, held by",
        State::OnItsWay => "on its way to",
        State::Gone => "gone from",
    };
    let mut text = format!(in alloc; "{words} v{vpe} of K{kernel}")?;
    if let Some(hold) = hold {
        let selector = hold.selector;
        text.push_str(format!(in alloc; " at selector {selector}")?.as_str())?;
    }
    Ok(text)
}

// Appends the endpoints of its VPE that are bound to the key.
fn push_endpoints(
    alloc: Global,
    text: &mut String,
    key: Key,
    world: &World,
) -> Result<(), OutOfMemory> {
    let mut begin = " and endpoint";
    for endpoint in 0..ENDPOINTS as u8 {
        if let Some((bound, _)) = world.binding(key.vpe, endpoint)
            && same_key(&bound, &key)
        {
            text.push_str(format!(in alloc; "{begin} {endpoint}")?.as_str())?;
            begin = ",";
        }
    }
    Ok(())
}

// Appends what takes the key, if anything does: the entry `taker`, or a clear that keeps it.
fn push_cause(
    alloc: Global,
    text: &mut String,
    entries: &[Entry],
    key: Key,
    state: State,
    taker: Option<usize>,
) -> Result<(), OutOfMemory> {
    let (words, cause) = match (taker, state) {
        (Some(_), State::Gone) => (" by ", taker),
        (Some(_), _) => (", to go by ", taker),
        (None, State::Marked) => (", until the end of ", clear_of(entries, key)),
        (None, _) => return Ok(()),
    };
    let Some(number) = cause else {
        return Ok(());
    };
    text.push_str(words)?;
    text.push_str(cause_text(alloc, entries, number)?.as_str())
}

// Appends what the key gives its holder.
fn push_object(
    alloc: Global,
    text: &mut String,
    object: Option<&Object>,
) -> Result<(), OutOfMemory> {
    let Some(object) = object else {
        return Ok(());
    };
    text.push_str("; ")?;
    text.push_str(object_text(alloc, object)?.as_str())
}
