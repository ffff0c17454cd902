// An outcome as it is told: its calls with the names of their codes, and the held keys.
use crate::data::{CallEnd, HeldKey, Outcome};
use sem_hint::key_text;
use sem_key::OutOfMemory;
use sem_msg::{Held, Setup, VpeDecl};
use sem_names::code_name;
use sem_waits::call_words;
use std::alloc::Global;

/// An outcome of the setup: the codes of the replies to each VPE, and the held keys. That many runs
/// end with it, the first of them by that seed.
pub fn told_outcome(
    alloc: Global,
    setup: &Setup,
    ending: (&[Vec<u8>], &[Held]),
    count: u64,
    seed: Option<u64>,
) -> Result<Outcome, OutOfMemory> {
    Ok(Outcome {
        count,
        seed,
        calls: call_ends(alloc, setup, ending.0)?,
        held: held_keys(alloc, ending.1)?,
    })
}

// How each call ended, VPE by VPE.
fn call_ends(alloc: Global, setup: &Setup, codes: &[Vec<u8>]) -> Result<Vec<CallEnd>, OutOfMemory> {
    let mut ends = Vec::new(alloc);
    for (at, decl) in setup.vpes.as_slice().iter().enumerate() {
        match codes.get(at) {
            Some(codes) => push_call_ends(alloc, &mut ends, decl, codes.as_slice())?,
            None => push_call_ends(alloc, &mut ends, decl, &[])?,
        }
    }
    Ok(ends)
}

// Appends how the calls of the VPE ended, given the codes of its replies in turn.
fn push_call_ends(
    alloc: Global,
    ends: &mut Vec<CallEnd>,
    decl: &VpeDecl,
    codes: &[u8],
) -> Result<(), OutOfMemory> {
    for (number, call) in decl.calls.as_slice().iter().enumerate() {
        let code = told_code(alloc, codes.get(number).copied())?;
        ends.push(CallEnd {
            vpe: decl.vpe,
            call: number as u64,
            words: call_words(alloc, call)?,
            code,
        })?;
    }
    Ok(())
}

fn told_code(alloc: Global, code: Option<u8>) -> Result<Option<String>, OutOfMemory> {
    match code {
        Some(code) => Ok(Some(String::from_str(alloc, code_name(code))?)),
        None => Ok(None),
    }
}

// The held capabilities.
fn held_keys(alloc: Global, held: &[Held]) -> Result<Vec<HeldKey>, OutOfMemory> {
    let mut keys = Vec::new(alloc);
    for it in held {
        keys.push(HeldKey {
            key: key_text(alloc, &it.key)?,
            selector: it.sel,
        })?;
    }
    Ok(keys)
}
