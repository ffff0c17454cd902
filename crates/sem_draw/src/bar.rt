// Bars: what lies on a line of addresses, and who owns it.
use crate::OutOfMemory;
use crate::table::Column;
use std::alloc::Global;

/// The owner of a part of a bar: its colour, the owner's number, and the number of what lies there.
#[derive(Clone, Copy, Debug, PartialEq, Eq)]
pub struct Owner {
    pub color: usize,
    pub group: u64,
    pub number: u64,
}

/// A part of a bar: its beginning, its length, and its owner; no owner if nothing lies there.
#[derive(Clone, Copy, Debug)]
pub struct Stretch {
    pub begin: u64,
    pub len: u64,
    pub owner: Option<Owner>,
}

/// A line below a bar and along it, and the text about it.
#[derive(Debug, Drop)]
pub struct Span {
    pub stretch: Stretch,
    pub text: String,
}

/// A bar with its table, which has a row for each stretch, and a table below.
#[derive(Debug, Drop)]
pub struct Bar {
    pub begin: u64,
    pub len: u64,
    pub title: String,
    /// How large the equal parts are that the text picture shows.
    pub scale: String,
    pub cells: Vec<Option<Owner>>,
    pub stretches: Vec<Stretch>,
    pub rows: Vec<Column>,
    pub spans: Vec<Span>,
    pub notes: Vec<Column>,
}

impl Bar {
    /// The address after its last one.
    pub fn end(&self) -> u64 {
        self.begin.saturating_add(self.len)
    }
}

/// The name of a part's owner.
pub fn group_text(alloc: Global, owner: Owner) -> Result<String, OutOfMemory> {
    let group = owner.group;
    format!(in alloc; "v{group}")
}
