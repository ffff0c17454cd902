// Requests for a forest, and their answers.
use crate::nodes::nodes_of;
use crate::tracks::Tracks;
use sem_check::{Noting, follow};
use sem_draw::{Answer, Ending, Node, Picture, tree_as_dot, tree_as_svg, tree_as_text};
use sem_hint::{no_report, too_few_entries, wrong_entry};
use sem_kernel::World;
use sem_key::OutOfMemory;
use sem_msg::{Entry, Journal, Setup};
use sem_report::read_report;
use std::alloc::Global;

/// The most keys of a forest.
pub const KEYS: usize = 10_000;

/// How a forest is written.
#[derive(Clone, Copy, Debug, PartialEq, Eq)]
pub enum TreeForm {
    Drawn { picture: Picture },
    /// As a graph in the language of Graphviz.
    Dot,
}

/// A request for the forest after the first `at` entries, or after all of them.
#[derive(Clone, Copy, Debug)]
pub struct TreeRequest {
    pub form: TreeForm,
    pub at: Option<u64>,
}

/// The answer to the request, with these bytes as the input.
pub fn tree(alloc: Global, request: &TreeRequest, bytes: &[u8]) -> Result<Answer, OutOfMemory> {
    match read_report(alloc, bytes) {
        Ok((setup, journal, _)) => tree_of(alloc, request, &setup, &journal),
        Err(error) => no_report(alloc, bytes, error),
    }
}

/// How many keys the setup and the entries make.
pub fn key_count(setup: &Setup, entries: &[Entry]) -> usize {
    let mut count = 0usize;
    for decl in setup.vpes.as_slice() {
        count = count.saturating_add(decl.roots.len());
    }
    let granted = entries.iter().filter(|entry| entry.grant.is_some());
    count.saturating_add(granted.count())
}

// The answer to the request on a report with that setup and journal.
fn tree_of(
    alloc: Global,
    request: &TreeRequest,
    setup: &Setup,
    journal: &Journal,
) -> Result<Answer, OutOfMemory> {
    let all = journal.len() as u64;
    let at = request.at.unwrap_or(all);
    if at > all {
        return too_few_entries(alloc, at, all);
    }
    let count = at as usize;
    let entries = &journal.as_slice()[..count];
    let keys = key_count(setup, entries);
    if keys > KEYS {
        let text = format!(in alloc;
            "the forest would have {keys} keys, and {KEYS} are the most: name fewer entries by --at\n"
        )?;
        return Ok(Answer::failed(alloc, Ending::WrongWords, text));
    }
    let mut world = World::boot(alloc, setup)?;
    let mut tracks = Noting(Tracks::start(alloc, setup)?);
    if let Some(difference) = follow(setup, &mut world, entries, &mut tracks)? {
        return wrong_entry(alloc, difference.entry);
    }
    let nodes = nodes_of(alloc, setup, journal, count, &world, &tracks.0)?;
    Ok(Answer::done(alloc, draw(alloc, nodes.as_slice(), request.form)?))
}

// Draws the forest. Text also tells how to ask for the life of a key; in an SVG picture each key
// tells it.
fn draw(alloc: Global, nodes: &[Node], form: TreeForm) -> Result<String, OutOfMemory> {
    let TreeForm::Drawn { picture } = form else {
        return tree_as_dot(alloc, nodes);
    };
    let mut text = match picture {
        Picture::Svg => return tree_as_svg(alloc, nodes),
        Picture::Boxes => tree_as_text(alloc, nodes, false)?,
        Picture::Plain => tree_as_text(alloc, nodes, true)?,
    };
    if !nodes.is_empty() {
        text.push_str("\nsemper-view story KEY tells the life of one of these\n")?;
    }
    Ok(text)
}
