// A forest as a graph in the language of Graphviz.
use crate::OutOfMemory;
use crate::tree::{Node, State};
use std::alloc::Global;

/// The forest as a directed graph, each node below its parent.
pub fn tree_as_dot(alloc: Global, nodes: &[Node]) -> Result<String, OutOfMemory> {
    let mut out = String::from_str(
        alloc,
        "digraph forest {\n  node [shape=box, style=filled, fontname=monospace];\n",
    )?;
    for (place, node) in nodes.iter().enumerate() {
        push_node(alloc, &mut out, place, node)?;
    }
    out.push_str("}\n")?;
    Ok(out)
}

// Appends the line of a node, and that of the edge from its parent.
fn push_node(
    alloc: Global,
    out: &mut String,
    place: usize,
    node: &Node,
) -> Result<(), OutOfMemory> {
    let colour = colour_of(node.state);
    out.push_str(format!(in alloc; "  n{place} [fillcolor=\"{colour}\", label=\"")?.as_str())?;
    push_quoted(out, node.name.as_str())?;
    out.push_str("\", tooltip=\"")?;
    push_quoted(out, node.text.as_str())?;
    out.push_str("\"];\n")?;
    match node.parent {
        Some(parent) if parent < place => {
            out.push_str(format!(in alloc; "  n{parent} -> n{place};\n")?.as_str())
        }
        _ => Ok(()),
    }
}

// The colour of a node in that state.
fn colour_of(state: State) -> &'static str {
    match state {
        State::Held => "#d8f0d8",
        State::Marked => "#ffe0b0",
        State::OnItsWay => "#d8e4ff",
        State::Gone => "#e8e8e8",
    }
}

// Appends the text, escaped for quotation marks.
fn push_quoted(out: &mut String, text: &str) -> Result<(), OutOfMemory> {
    for letter in text.chars() {
        if letter == '"' || letter == '\\' {
            out.push('\\')?;
        }
        out.push(letter)?;
    }
    Ok(())
}
