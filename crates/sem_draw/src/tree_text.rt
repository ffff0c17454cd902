// A forest as text.
use crate::OutOfMemory;
use crate::lines::{WIDTH, push_blanks, wrapped};
use crate::tree::{Node, Visit, walk};
use std::alloc::Global;

/// The most levels that are drawn below a root; deeper nodes are drawn at the last of them.
pub const LEVELS: usize = 12;

/// The fewest columns left for the text about a node.
const TEXT: usize = 36;

/// The forest as text of 100 columns, with box characters or without.
pub fn tree_as_text(alloc: Global, nodes: &[Node], is_plain: bool) -> Result<String, OutOfMemory> {
    let mut out = String::new(alloc);
    let mut goes_on = Vec::new(alloc);
    for visit in walk(alloc, nodes)?.as_slice() {
        if visit.depth < goes_on.len() {
            goes_on.truncate(visit.depth);
        }
        let Some(node) = nodes.get(visit.node) else {
            continue;
        };
        push_node(alloc, &mut out, node, *visit, goes_on.as_slice(), is_plain)?;
        goes_on.push(!visit.is_last)?;
    }
    Ok(out)
}

// Appends the lines of a node. `goes_on` tells for each level above it whether more children come.
fn push_node(
    alloc: Global,
    out: &mut String,
    node: &Node,
    visit: Visit,
    goes_on: &[bool],
    is_plain: bool,
) -> Result<(), OutOfMemory> {
    let levels = visit.depth.min(LEVELS);
    let begins = levels
        .saturating_mul(3)
        .saturating_add(node.name.len())
        .saturating_add(2);
    let width = WIDTH.saturating_sub(begins).max(TEXT);
    let pieces = wrapped(alloc, node.text.as_str(), width)?;
    for (at, piece) in pieces.as_slice().iter().enumerate() {
        if at == 0 {
            push_branch(out, goes_on, levels, visit.is_last, is_plain)?;
            out.push_str(node.name.as_str())?;
            out.push_str("  ")?;
        } else {
            push_stems(out, goes_on, levels, is_plain)?;
            push_stem(out, levels > 0 && !visit.is_last, levels > 0, is_plain)?;
            push_blanks(out, node.name.len().saturating_add(2))?;
        }
        out.push_str(piece.as_str())?;
        out.push('\n')?;
    }
    Ok(())
}

// Appends the lines of the levels above a node, except the last of them.
fn push_stems(
    out: &mut String,
    goes_on: &[bool],
    levels: usize,
    is_plain: bool,
) -> Result<(), OutOfMemory> {
    for level in 1..levels {
        let is_open = goes_on.get(level).copied().unwrap_or(false);
        push_stem(out, is_open, true, is_plain)?;
    }
    Ok(())
}

// Appends a level: its line if it goes on, and nothing if there is none.
fn push_stem(
    out: &mut String,
    goes_on: bool,
    is_there: bool,
    is_plain: bool,
) -> Result<(), OutOfMemory> {
    match (is_there, goes_on, is_plain) {
        (false, _, _) => Ok(()),
        (true, false, _) => out.push_str("   "),
        (true, true, false) => out.push_str("│  "),
        (true, true, true) => out.push_str("|  "),
    }
}

// Appends the line that leads to a node.
fn push_branch(
    out: &mut String,
    goes_on: &[bool],
    levels: usize,
    is_last: bool,
    is_plain: bool,
) -> Result<(), OutOfMemory> {
    push_stems(out, goes_on, levels, is_plain)?;
    match (levels, is_last, is_plain) {
        (0, _, _) => Ok(()),
        (_, true, false) => out.push_str("└─ "),
        (_, false, false) => out.push_str("├─ "),
        (_, true, true) => out.push_str("`- "),
        (_, false, true) => out.push_str("|- "),
    }
}
