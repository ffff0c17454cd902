// The areas of memory: each belongs to a root memory, or to several that share addresses.
use sem_key::{Key, Kind, NUMBERS, Object, OutOfMemory, PES, VPES};
use sem_msg::{Setup, VpeDecl};
use std::alloc::Global;

/// An area and the keys of the root memories in it.
#[derive(Debug, Drop)]
pub struct Area {
    pub base: u64,
    pub len: u64,
    pub roots: Vec<Key>,
}

impl Area {
    /// The address after its last one.
    pub fn end(&self) -> u64 {
        self.base.saturating_add(self.len)
    }
}

// A root memory.
#[derive(Clone, Copy, Debug)]
struct RootMemory {
    base: u64,
    len: u64,
    key: Key,
}

/// The areas of the root memories of a setup, in rising order.
pub fn areas(alloc: Global, setup: &Setup) -> Result<Vec<Area>, OutOfMemory> {
    let mut roots = Vec::new(alloc);
    for decl in setup.vpes.as_slice() {
        push_roots(&mut roots, decl)?;
    }
    roots.sort_by_key(|root: &RootMemory| root.base)?;
    let mut areas: Vec<Area> = Vec::new(alloc);
    for root in roots.as_slice() {
        if !joins_last(&mut areas, root)? {
            let mut keys = Vec::new(alloc);
            keys.push(root.key)?;
            areas.push(Area {
                base: root.base,
                len: root.len,
                roots: keys,
            })?;
        }
    }
    Ok(areas)
}

// Appends the root memories of a VPE.
fn push_roots(roots: &mut Vec<RootMemory>, decl: &VpeDecl) -> Result<(), OutOfMemory> {
    for (place, root) in decl.roots.as_slice().iter().enumerate() {
        if let Object::Mem { base, len, .. } = root.object
            && let Some(key) = root_key(decl, place)
        {
            roots.push(RootMemory {
                base: u64::from(base),
                len: u64::from(len),
                key,
            })?;
        }
    }
    Ok(())
}

// The key of a root memory of the VPE; its roots are numbered from 0. None if that is no key, which
// no setup has.
fn root_key(decl: &VpeDecl, place: usize) -> Option<Key> {
    let number = u16::try_from(place).ok()?;
    if usize::from(decl.pe) >= PES || decl.vpe >= VPES || number >= NUMBERS {
        return None;
    }
    Some(Key {
        pe: decl.pe,
        vpe: decl.vpe,
        kind: Kind::Mem,
        number,
    })
}

// Whether the root memory shares addresses with the last area; then it is part of it.
fn joins_last(areas: &mut Vec<Area>, root: &RootMemory) -> Result<bool, OutOfMemory> {
    let Some(last) = areas.last_mut() else {
        return Ok(false);
    };
    if root.base >= last.end() {
        return Ok(false);
    }
    let end = last.end().max(root.base.saturating_add(root.len));
    last.len = end.saturating_sub(last.base);
    last.roots.push(root.key)?;
    Ok(true)
}

/// The place of the area with the address: the last one that begins there or before it.
pub fn area_of(areas: &[Area], address: u64) -> Option<usize> {
    let mut found = None;
    for (place, area) in areas.iter().enumerate() {
        if area.base <= address {
            found = Some(place);
        }
    }
    found
}
