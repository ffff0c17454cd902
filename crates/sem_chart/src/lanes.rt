// The lanes of a chart: each shown kernel, and after it those of its VPEs that do something in the
// range.
use sem_draw::Lane;
use sem_key::OutOfMemory;
use sem_msg::{Act, Detail, Entry, Setup};
use std::alloc::Global;

/// The shown kernels; all if none is named.
#[derive(Debug, Drop)]
pub struct Shown {
    pub kernels: Vec<u32>,
}

impl Shown {
    /// Whether the kernel is shown; every kernel is if none is named.
    pub fn has(&self, kernel: u32) -> bool {
        self.kernels.is_empty() || self.kernels.contains(&kernel)
    }
}

/// The lanes for these entries.
pub fn lanes_of(
    alloc: Global,
    setup: &Setup,
    shown: &Shown,
    entries: &[Entry],
) -> Result<Vec<Lane>, OutOfMemory> {
    let active = active_vpes(alloc, entries)?;
    let mut lanes = Vec::new(alloc);
    for kernel in 0..setup.kernels {
        if !shown.has(kernel) {
            continue;
        }
        lanes.push(Lane::Kernel { number: kernel })?;
        for decl in setup.vpes.as_slice() {
            if active.contains(&decl.vpe) && setup.kernel_of(decl.vpe) == kernel {
                lanes.push(Lane::Vpe { number: decl.vpe })?;
            }
        }
    }
    Ok(lanes)
}

// The VPEs that do something in the entries.
fn active_vpes(alloc: Global, entries: &[Entry]) -> Result<Vec<u16>, OutOfMemory> {
    let mut active = Vec::new(alloc);
    for entry in entries {
        if let Some(vpe) = vpe_of(entry.event.act)
            && !active.contains(&vpe)
        {
            active.push(vpe)?;
        }
    }
    Ok(active)
}

/// The VPE of an act, if it has one.
pub fn vpe_of(act: Act) -> Option<u16> {
    match act {
        Act::Call { vpe } | Act::Upcall { vpe } | Act::Resume { vpe } | Act::Kill { vpe } => {
            Some(vpe)
        }
        Act::Fetch { .. } | Act::Handle | Act::Flush { .. } => None,
    }
}

/// The VPE that ends by the entry, if one does.
pub fn ended_by(entry: &Entry) -> Option<u16> {
    match (entry.event.act, entry.detail) {
        (Act::Kill { vpe }, _) => Some(vpe),
        (
            Act::Call { vpe },
            Detail::Called {
                call: sem_msg::Call::Exit,
                ..
            },
        ) => Some(vpe),
        _ => None,
    }
}

/// The place of a kernel's lane, if it has one.
pub fn kernel_lane(lanes: &[Lane], kernel: u32) -> Option<usize> {
    lanes
        .iter()
        .position(|lane| *lane == Lane::Kernel { number: kernel })
}

/// The place of a VPE's lane, if it has one.
pub fn vpe_lane(lanes: &[Lane], vpe: u16) -> Option<usize> {
    lanes
        .iter()
        .position(|lane| *lane == Lane::Vpe { number: vpe })
}
