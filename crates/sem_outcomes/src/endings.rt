// The outcome of a run.
ghost use Rattle.std.specs.Prelude.{◌≡◌, ◌↔◌, ◌∷◌, ◌++◌, [], IsTrue, IfOk, OnOk};
ghost use Rattle.std.specs.Option.{option_to_list};
ghost use Rattle.sem_outcomes.specs.Codes.{code_of};
ghost use Rattle.sem_msg.specs.Audits.{held_pairs};
ghost use Rattle.sem_machine.specs.Schedules.{world_after};
ghost use Rattle.sem_histories.specs.Outcomes.{outcome, codes_to as codes_to_spec};
ghost use Rattle.std.specs.Prelude.{map};

use sem_audit::held_list;
use sem_histories::RunOutcome;
use sem_kernel::Kernel;
use sem_key::OutOfMemory;
use sem_msg::{Entry, Held, Reply, Setup};
use std::alloc::Global;

// The outcome of the run with these entries, which ends with these kernels.
pub fn outcome_of(
    alloc: Global,
    setup: &Setup,
    kernels: &[Kernel],
    entries: &[Entry],
) -> Result<RunOutcome, OutOfMemory>
    requires { map (λ k. k.side) kernels.now ≡ (world_after setup.now entries.now).sides }
    ensures { IfOk result (λ o. o ≡ outcome setup.now entries.now) }
{
    let codes = all_codes(alloc, setup, entries)?;
    Ok(RunOutcome {
        codes,
        held: held_list(alloc, kernels)?,
    })
}

// The codes of the replies to each VPE, in order.
fn all_codes(alloc: Global, setup: &Setup, entries: &[Entry]) -> Result<Vec<Vec<u8>>, OutOfMemory>
    ensures { IfOk result (λ codes. map (λ c. c.items) codes.items
        ≡ map (λ d. codes_to_spec entries.now d.vpe) setup.now.vpes) }
{
    let mut codes = Vec::new(alloc);
    for decl in setup.vpes.as_slice() {
        codes.push(codes_to(alloc, entries, decl.vpe)?)?;
    }
    Ok(codes)
}

// The codes of the replies to the VPE, in order.
fn codes_to(alloc: Global, entries: &[Entry], vpe: u16) -> Result<Vec<u8>, OutOfMemory>
    ensures { IfOk result (λ codes. codes.items ≡ codes_to_spec entries.now vpe) }
{
    let mut codes = Vec::new(alloc);
    for entry in entries {
        add_code(&mut codes, entry, vpe)?;
    }
    Ok(codes)
}

// Adds the code that the entry tells the VPE, if it tells one.
fn add_code(codes: &mut Vec<u8>, entry: &Entry, vpe: u16) -> Result<(), OutOfMemory>
    ensures { OnOk result
        (codes.new.items ≡ codes.old.items ++ codes_to_spec (entry.now ∷ []) vpe) }
{
    if let Some(code) = code_to(entry, vpe) {
        codes.push(code)?;
    }
    Ok(())
}

// The code that the entry tells the VPE, if it tells one.
fn code_to(entry: &Entry, vpe: u16) -> Option<u8>
    ensures { codes_to_spec (entry.now ∷ []) vpe ≡ option_to_list result }
{
    match entry.reply {
        Some(reply) => own_code(reply, vpe),
        None => None,
    }
}

// The code of the reply, if it is to the VPE.
fn own_code(reply: Reply, vpe: u16) -> Option<u8>
    ensures { code_of reply vpe ≡ option_to_list result }
{
    if reply.vpe == vpe {
        Some(reply.code)
    } else {
        None
    }
}

pub fn same_outcome(one: &RunOutcome, other: &RunOutcome) -> bool
    ensures { IsTrue result ↔ (one.now ≡ other.now) }
{
    same_codes(&one.codes, &other.codes) && same_held(one.held.as_slice(), other.held.as_slice())
}

fn same_codes(one: &[Vec<u8>], other: &[Vec<u8>]) -> bool
    ensures { IsTrue result ↔ (map (λ c. c.items) one.now ≡ map (λ c. c.items) other.now) }
{
    one == other
}

// Whether the same keys are held at the same selectors.
fn same_held(one: &[Held], other: &[Held]) -> bool
    ensures { IsTrue result ↔ (held_pairs one.now ≡ held_pairs other.now) }
{
    one == other
}
