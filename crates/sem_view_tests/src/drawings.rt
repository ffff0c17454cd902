use sem_draw::{
    Chart, Family, Lane, Mark, Moment, Node, Row, State, Timeline, chart_as_svg, chart_as_text,
    fits, timeline_as_svg, timeline_as_text, tree_as_svg, tree_as_text,
};
use std::test::Fail;

// Two kernels, and a VPE of the first.
const LANES: [Lane; 3] = [
    Lane::Kernel { number: 0 },
    Lane::Vpe { number: 7 },
    Lane::Kernel { number: 1 },
];

// The VPE makes a call that sends a message to the other kernel.
const ROWS: [(u64, Mark, &str); 5] = [
    (
        5,
        Mark::Call {
            vpe: 1,
            kernel: 0,
            is_answered: false,
        },
        "asks",
    ),
    (
        6,
        Mark::Sent {
            from: 0,
            to: 2,
            until: Some(8),
            family: Family::Obtain,
        },
        "leaves",
    ),
    (7, Mark::Dot { kernel: 1 }, "<other>"),
    (
        8,
        Mark::Arrived {
            from: 0,
            to: 2,
            since: 6,
            family: Family::Obtain,
        },
        "arrives",
    ),
    (9, Mark::Answer { kernel: 0, vpe: 1 }, "answered"),
];

const CHART: &str = "\
\x20      K0       v7       K1
   5   |<-------+        |        asks
   6   +~+      #        |        leaves
   7   | !      *        |        <other>
   8   | +~~~~~~+~~~~~~~>|        arrives
   9   +------->#        |        answered
";

#[test]
fn a_chart_has_a_line_for_each_row_and_is_a_picture(rt: HostRuntime) -> Result<(), Fail> {
    let alloc = rt.alloc();
    let mut lanes = Vec::new(alloc);
    for lane in LANES {
        lanes.push(lane)?;
    }
    let mut rows = Vec::new(alloc);
    for (number, mark, label) in ROWS {
        rows.push(Row {
            number,
            mark,
            ends: None,
            label: String::from_str(alloc, label)?,
        })?;
    }
    let chart = Chart {
        lanes,
        waiting: Vec::new(alloc),
        ended: Vec::new(alloc),
        early: Vec::new(alloc),
        rows,
    };
    assert!(rt; fits(alloc, &chart)?);
    let text = chart_as_text(alloc, &chart, true)?;
    assert_eq!(rt; text.as_str(), CHART);
    let picture = chart_as_svg(alloc, &chart)?;
    assert!(rt; picture.as_str().starts_with("<svg "));
    assert!(rt; picture.as_str().contains("&lt;other&gt;"));
    assert!(rt; picture.as_str().ends_with("</svg>\n"));
    Ok(())
}

// A root with two children, the first of which has a child, and a second root.
const NODES: [(Option<usize>, &str); 5] = [
    (None, "a"),
    (None, "b"),
    (Some(0), "c"),
    (Some(0), "d"),
    (Some(2), "e"),
];

const TREE: &str = "\
a  said
├─ c  said
│  └─ e  said
└─ d  said
b  said
";

#[test]
fn a_tree_has_children_below_their_parents(rt: HostRuntime) -> Result<(), Fail> {
    let alloc = rt.alloc();
    let mut nodes = Vec::new(alloc);
    for (parent, name) in NODES {
        nodes.push(Node {
            parent,
            name: String::from_str(alloc, name)?,
            text: String::from_str(alloc, "said")?,
            hint: String::from_str(alloc, "<more>")?,
            state: State::Held,
        })?;
    }
    let text = tree_as_text(alloc, nodes.as_slice(), false)?;
    assert_eq!(rt; text.as_str(), TREE);
    let picture = tree_as_svg(alloc, nodes.as_slice())?;
    assert!(rt; picture.as_str().contains(">e</text>"));
    assert!(rt; picture.as_str().contains("<title>&lt;more&gt;</title>"));
    Ok(())
}

const MOMENTS: [(Option<u64>, State); 3] = [
    (None, State::OnItsWay),
    (Some(7), State::Held),
    (Some(123456), State::Gone),
];

const TIMELINE: &str = "\
name  said

   entry
   start  :  happened  <line>
       7  |  happened  <line>
  123456  x  happened  <line>
";

#[test]
fn a_timeline_has_a_row_for_each_moment(rt: HostRuntime) -> Result<(), Fail> {
    let alloc = rt.alloc();
    let mut moments = Vec::new(alloc);
    for (number, state) in MOMENTS {
        moments.push(Moment {
            number,
            text: String::from_str(alloc, "happened")?,
            line: String::from_str(alloc, "<line>")?,
            state,
        })?;
    }
    let timeline = Timeline {
        len: 200000,
        name: String::from_str(alloc, "name")?,
        text: String::from_str(alloc, "said")?,
        moments,
    };
    let text = timeline_as_text(alloc, &timeline, true)?;
    assert_eq!(rt; text.as_str(), TIMELINE);
    let picture = timeline_as_svg(alloc, &timeline)?;
    assert!(rt; picture.as_str().contains("&lt;line&gt;"));
    Ok(())
}
