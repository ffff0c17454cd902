// The places of a line of a text picture.
use crate::OutOfMemory;

/// How a vertical line is drawn.
#[derive(Clone, Copy, Debug, PartialEq, Eq)]
pub enum Upright {
    /// No lifeline.
    None,
    /// The lifeline of a kernel.
    Kernel,
    /// The lifeline of a VPE.
    Idle,
    /// The lifeline of a VPE that waits.
    Waiting,
    /// A message on its way.
    Message,
}

/// One place: the lines that leave it, and a sign over them.
#[derive(Clone, Copy, Debug)]
pub struct Cell {
    pub above: Upright,
    pub below: Upright,
    pub left: bool,
    pub right: bool,
    /// Whether the horizontal line is that of a message.
    pub is_message: bool,
    pub sign: Sign,
}

/// The sign over the lines of a place.
#[derive(Clone, Copy, Debug, PartialEq, Eq)]
pub enum Sign {
    None,
    LeftHead,
    RightHead,
    Dot,
    Cross,
}

impl Cell {
    /// A place without lines and sign.
    pub fn empty() -> Cell {
        Cell {
            above: Upright::None,
            below: Upright::None,
            left: false,
            right: false,
            is_message: false,
            sign: Sign::None,
        }
    }

    // The character of the place, with box characters.
    fn boxed(&self) -> char {
        match self.sign {
            Sign::LeftHead => return '◀',
            Sign::RightHead => return '▶',
            Sign::Dot => return '●',
            Sign::Cross => return '✗',
            Sign::None => {}
        }
        match (self.above, self.below) {
            (Upright::None, Upright::None) => level(self.left, self.right, self.is_message),
            (Upright::None, _) if self.left => '╮',
            (Upright::None, _) if self.right => '╭',
            (Upright::None, _) => '╷',
            (_, Upright::None) if self.left => '╯',
            (_, Upright::None) if self.right => '╰',
            (_, Upright::None) => '╵',
            (_, below) => crossed(below, self.left, self.right),
        }
    }

    // The character of the place, without box characters.
    fn plain(&self) -> char {
        match self.sign {
            Sign::LeftHead => return '<',
            Sign::RightHead => return '>',
            Sign::Dot => return '*',
            Sign::Cross => return 'x',
            Sign::None => {}
        }
        match (self.above, self.below) {
            (Upright::None, Upright::None) if !self.left && !self.right => ' ',
            (Upright::None, Upright::None) if self.is_message => '~',
            (Upright::None, Upright::None) => '-',
            _ if self.left || self.right => '+',
            (Upright::Kernel, _) => '|',
            (Upright::Waiting, _) => '#',
            (Upright::Message, _) => '!',
            _ => ':',
        }
    }
}

// A place that only a horizontal line crosses, or none.
fn level(left: bool, right: bool, is_message: bool) -> char {
    match (left || right, is_message) {
        (false, _) => ' ',
        (true, false) => '─',
        (true, true) => '╌',
    }
}

// A place that a vertical line crosses.
fn crossed(line: Upright, left: bool, right: bool) -> char {
    match (line, left, right) {
        (Upright::Kernel, false, false) => '║',
        (Upright::Kernel, true, false) => '╢',
        (Upright::Kernel, false, true) => '╟',
        (Upright::Kernel, true, true) => '╫',
        (Upright::Waiting, false, false) => '┃',
        (Upright::Waiting, true, false) => '┨',
        (Upright::Waiting, false, true) => '┠',
        (Upright::Waiting, true, true) => '╂',
        (Upright::Message, false, false) => '╎',
        (_, false, false) => '│',
        (_, true, false) => '┤',
        (_, false, true) => '├',
        (_, true, true) => '┼',
    }
}

/// Appends the places as characters.
pub fn push_cells(out: &mut String, cells: &[Cell], is_plain: bool) -> Result<(), OutOfMemory> {
    for cell in cells {
        out.push(if is_plain { cell.plain() } else { cell.boxed() })?;
    }
    Ok(())
}
