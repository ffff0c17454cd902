// What a trace declares, as the members of a JSON object.
use crate::words::object_words;
use sem_key::{OutOfMemory, PES};
use sem_msg::{Root, Setup, VpeDecl};
use sem_waits::call_words;
use serde::Serialize;
use std::alloc::Global;

/// The line of the declarations.
#[derive(Debug, Drop, Serialize)]
pub struct SetupLine {
    line: &'static str,
    version: u8,
    window: u32,
    kernels: u32,
    pes: Vec<Pe>,
    vpes: Vec<Vpe>,
    offers: Vec<OfferMembers>,
    denies: Vec<Deny>,
    kills: Vec<Kill>,
}

#[derive(Clone, Copy, Debug, Serialize)]
struct Pe {
    pe: u8,
    kernel: u32,
}

#[derive(Debug, Drop, Serialize)]
struct Vpe {
    vpe: u16,
    pe: u8,
    kernel: u32,
    roots: Vec<RootMembers>,
    calls: Vec<String>,
}

#[derive(Debug, Drop, Serialize)]
struct RootMembers {
    selector: u8,
    key: String,
    object: String,
}

#[derive(Clone, Copy, Debug, Serialize)]
struct OfferMembers {
    service: u8,
    index: u8,
    selector: u8,
}

#[derive(Clone, Copy, Debug, Serialize)]
struct Deny {
    vpe: u16,
    asker: u16,
}

// The number of replies can exceed what a reader of JSON keeps exactly, so it is a text.
#[derive(Debug, Drop, Serialize)]
struct Kill {
    vpe: u16,
    replies: String,
}

impl SetupLine {
    /// What the setup declares.
    pub fn of(alloc: Global, setup: &Setup) -> Result<SetupLine, OutOfMemory> {
        let mut vpes = Vec::new(alloc);
        for decl in setup.vpes.as_slice() {
            vpes.push(vpe_of(alloc, setup, decl)?)?;
        }
        let mut offers = Vec::new(alloc);
        for offer in setup.offers.as_slice() {
            offers.push(OfferMembers {
                service: offer.name,
                index: offer.index,
                selector: offer.sel,
            })?;
        }
        let mut denies = Vec::new(alloc);
        for (vpe, asker) in setup.denies.as_slice() {
            denies.push(Deny {
                vpe: *vpe,
                asker: *asker,
            })?;
        }
        Ok(SetupLine {
            line: "setup",
            version: setup.version,
            window: setup.window,
            kernels: setup.kernels,
            pes: pes_of(alloc, setup)?,
            vpes,
            offers,
            denies,
            kills: kills_of(alloc, setup)?,
        })
    }
}

// The PEs that kernels own.
fn pes_of(alloc: Global, setup: &Setup) -> Result<Vec<Pe>, OutOfMemory> {
    let mut pes = Vec::new(alloc);
    for pe in 0..PES {
        let pe = pe as u8;
        if let Some(kernel) = setup.owners.owner(pe) {
            pes.push(Pe { pe, kernel })?;
        }
    }
    Ok(pes)
}

// The VPEs that are killed, and after how many replies each is.
fn kills_of(alloc: Global, setup: &Setup) -> Result<Vec<Kill>, OutOfMemory> {
    let mut kills = Vec::new(alloc);
    for (vpe, replies) in setup.kills.as_slice() {
        kills.push(Kill {
            vpe: *vpe,
            replies: format!(in alloc; "{replies}")?,
        })?;
    }
    Ok(kills)
}

// A declared VPE.
fn vpe_of(alloc: Global, setup: &Setup, decl: &VpeDecl) -> Result<Vpe, OutOfMemory> {
    let mut roots = Vec::new(alloc);
    for (number, root) in decl.roots.as_slice().iter().enumerate() {
        roots.push(root_of(alloc, decl, number, root)?)?;
    }
    let mut calls = Vec::new(alloc);
    for call in decl.calls.as_slice() {
        calls.push(call_words(alloc, call)?)?;
    }
    Ok(Vpe {
        vpe: decl.vpe,
        pe: decl.pe,
        kernel: setup.kernel_of(decl.vpe),
        roots,
        calls,
    })
}

fn root_of(
    alloc: Global,
    decl: &VpeDecl,
    number: usize,
    root: &Root,
) -> Result<RootMembers, OutOfMemory> {
    let (pe, vpe, kind) = (decl.pe, decl.vpe, root.object.kind().number());
    Ok(RootMembers {
        selector: root.sel,
        key: format!(in alloc; "{pe}.{vpe}.{kind}.{number}")?,
        object: object_words(alloc, &root.object)?,
    })
}
