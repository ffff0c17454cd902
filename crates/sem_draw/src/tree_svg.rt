// A forest as SVG.
use crate::OutOfMemory;
use crate::svg::{
    Point, push_head, push_hint, push_hint_end, push_line, push_rect, push_tail, push_text,
    state_class, text_width,
};
use crate::tree::{Node, State, Visit, walk};
use std::alloc::Global;

/// The height of a node, its distance to the right of its parent, and the place of the first one.
const ROW: u64 = 30;

const STEP: u64 = 34;

const EDGE: u64 = 16;

/// The style of the classes.
const STYLE: &str =
    "text{font:13px 'DejaVu Sans Mono',Menlo,Consolas,monospace;fill:#1f2430}.link{stroke:#8d95a8;stroke-width:1.5}.held{fill:#e3f0ff;stroke:#1668c1}.marked{fill:#ffe9c2;stroke:#b57a00}.way{fill:#e6f6ea;stroke:#1b8a3a;stroke-dasharray:4 3}.gone{fill:#f1f1f3;stroke:#a0a4ae;stroke-dasharray:2 3}";

// The place of a node at that step of the walk.
fn corner(place: usize, depth: usize) -> Point {
    Point {
        x: (depth as u64).saturating_mul(STEP).saturating_add(EDGE),
        y: (place as u64).saturating_mul(ROW).saturating_add(EDGE),
    }
}

/// The forest as an SVG picture.
pub fn tree_as_svg(alloc: Global, nodes: &[Node]) -> Result<String, OutOfMemory> {
    let visits = walk(alloc, nodes)?;
    let mut out = String::new(alloc);
    push_head(alloc, &mut out, size(nodes, visits.as_slice()), STYLE)?;
    let mut above = Vec::new(alloc);
    for (place, visit) in visits.as_slice().iter().enumerate() {
        above.truncate(visit.depth);
        if let Some(node) = nodes.get(visit.node) {
            push_node(
                alloc,
                &mut out,
                node,
                corner(place, visit.depth),
                above.last(),
            )?;
        }
        above.push(corner(place, visit.depth))?;
    }
    push_tail(&mut out)?;
    Ok(out)
}

// The width and the height of the picture.
fn size(nodes: &[Node], visits: &[Visit]) -> Point {
    let mut width = 200u64;
    for visit in visits {
        if let Some(node) = nodes.get(visit.node) {
            let text = text_width(node.name.len().saturating_add(node.text.len()));
            let right = corner(0, visit.depth).x.saturating_add(text);
            width = width.max(right.saturating_add(60));
        }
    }
    Point {
        x: width,
        y: corner(visits.len(), 0).y,
    }
}

// Appends a node, and the line from its parent.
fn push_node(
    alloc: Global,
    out: &mut String,
    node: &Node,
    at: Point,
    parent: Option<&Point>,
) -> Result<(), OutOfMemory> {
    let middle = at.y.saturating_add(11);
    if let Some(above) = parent {
        let x = above.x.saturating_add(14);
        let top = Point {
            x,
            y: above.y.saturating_add(22),
        };
        let bend = Point { x, y: middle };
        push_line(alloc, out, "link", top, bend)?;
        let end = Point { x: at.x, y: middle };
        push_line(alloc, out, "link", bend, end)?;
    }
    push_hint(out, node.hint.as_str())?;
    let width = text_width(node.name.len()).saturating_add(16);
    push_rect(alloc, out, state_class(node.state), at, width, 22)?;
    let base = at.y.saturating_add(16);
    let name = Point {
        x: at.x.saturating_add(8),
        y: base,
    };
    push_text(alloc, out, "name", name, node.name.as_str())?;
    let text = Point {
        x: at.x.saturating_add(width).saturating_add(10),
        y: base,
    };
    push_text(alloc, out, "text", text, node.text.as_str())?;
    push_hint_end(out)
}
