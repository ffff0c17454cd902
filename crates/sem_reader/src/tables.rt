// What the lines so far declare, by number.
ghost use Rattle.std.specs.Prelude.{◌≡◌, [], replicate, IfOk};
ghost use Rattle.sem_key.specs.declared.limits.TheConstants.{VPES as VPES_SPEC};
ghost use Rattle.sem_reader.specs.Tells.{Tells, HasSizes};

use indexmap::{IndexMap, IndexSet};
use sem_key::{Membership, OutOfMemory};
use sem_msg::{Calls, Roots};
use std::alloc::Global;

/// How many PEs, and how many VPEs, a text can name.
pub(crate) const VPES: usize = sem_key::VPES as usize;

/// How many selectors, names and indexes there can be.
pub(crate) const BYTES: usize = 256;

/// What is declared so far.
#[derive(Drop)]
pub(crate) struct Tables {
    /// The version of the text.
    pub version: u8,
    /// The window, if a line tells it.
    pub window: Option<u32>,
    /// Which kernel owns which PE.
    pub owners: Membership,
    /// The PE of each VPE.
    pub pes: [Option<u8>; VPES],
    /// Which PEs have a VPE.
    pub taken: [bool; VPES],
    /// What each VPE holds at the start.
    pub roots: Vec<Roots>,
    /// The calls of each VPE.
    pub calls: Vec<Calls>,
    /// How many calls there are.
    pub call_number: u32,
    /// Which names have a service.
    pub named: [bool; BYTES],
    /// What is offered, by name and index.
    pub offers: IndexMap<(u8, u8), u8>,
    /// Which VPE denies which.
    pub denied: IndexSet<(u16, u16)>,
    /// After how many replies each VPE is killed.
    pub kills: [Option<u64>; VPES],
}

// Empty lists of roots for all VPEs.
fn no_roots(alloc: Global) -> Result<Vec<Roots>, OutOfMemory>
    ensures { IfOk result (λ lists. lists.items ≡ replicate VPES_SPEC []) }
{
    let mut lists = Vec::new(alloc);
    for _ in 0..VPES {
        lists.push(Roots::new(alloc))?;
    }
    Ok(lists)
}

// Empty lists of calls for all VPEs.
fn no_calls(alloc: Global) -> Result<Vec<Calls>, OutOfMemory>
    ensures { IfOk result (λ lists. lists.items ≡ replicate VPES_SPEC []) }
{
    let mut lists = Vec::new(alloc);
    for _ in 0..VPES {
        lists.push(Calls::new(alloc))?;
    }
    Ok(lists)
}

impl Tables {
    /// One kernel in a text of version 1, and nothing else declared.
    pub(crate) fn new(alloc: Global) -> Result<Tables, OutOfMemory>
        ensures tells { IfOk result (Tells 1 1 []) }
        ensures sizes { IfOk result HasSizes }
    {
        Ok(Tables {
            version: 1,
            window: None,
            owners: Membership::empty(1),
            pes: [None; VPES],
            taken: [false; VPES],
            roots: no_roots(alloc)?,
            calls: no_calls(alloc)?,
            call_number: 0,
            named: [false; BYTES],
            offers: IndexMap::new(alloc),
            denied: IndexSet::new(alloc),
            kills: [None; VPES],
        })
    }
}
