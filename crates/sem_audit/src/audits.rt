ghost use Rattle.std.specs.Prelude.{◌≡◌, length, map, IfOk};
ghost use Rattle.sem_msg.specs.Audits.{held_pairs};
ghost use Rattle.sem_machine.specs.Journals.{made as made_spec, cut};
ghost use Rattle.sem_machine.specs.HeldKeys.{keys_held};

use crate::holds::held_list;
use sem_grants::{cut_among, made_keys};
use sem_kernel::Kernel;
use sem_key::OutOfMemory;
use sem_msg::{Audit, Journal, Setup};
use std::alloc::Global;

/// The audit of a journal, given the kernels after it.
pub fn audit_of(
    alloc: Global,
    setup: &Setup,
    journal: &Journal,
    kernels: &[Kernel],
) -> Result<Audit, OutOfMemory>
    ensures made { IfOk result (λ audit.
        audit.made ≡ length (made_spec setup.now journal.now.entries)) }
    ensures cut { IfOk result (λ audit. audit.cut ≡ length (cut setup.now journal.now.entries)) }
    ensures held { IfOk result (λ audit.
        held_pairs audit.held ≡ keys_held (map (λ k. k.side) kernels.now)) }
{
    let made = made_keys(alloc, setup, journal)?;
    let cut = cut_among(alloc, &made, journal)?;
    Ok(Audit {
        made: made.len() as u64,
        cut: cut.len() as u64,
        held: held_list(alloc, kernels)?,
    })
}
