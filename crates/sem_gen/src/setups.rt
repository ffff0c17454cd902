// The setup of a seed.
ghost use Rattle.std.specs.Prelude.{◌≡◌, ◌+◌, ◌*◌, ◌/◌, ◌<◌, ◌≤◌, IfOk, map};
ghost use Rattle.std.specs.List.{range_with_len};
ghost use Rattle.sem_key.specs.declared.limits.TheConstants.{KERNELS};
ghost use Rattle.sem_gen.specs.Generated.{generated, owners_of as owners_spec};
ghost use Rattle.sem_gen.specs.Generated.{generated_roots as roots_spec, version_for as version_spec};
ghost use Rattle.sem_gen.specs.Generated.{vpe_of as vpe_spec};

use crate::calls::draw_calls;
use rand_pcg::Lcg64Xsh32;
use sem_key::{Membership, Object, OutOfMemory, RIGHTS};
use sem_msg::{Denies, Kills, Offers, Root, Roots, Services, Setup, VpeDecl, Vpes0};
use std::alloc::Global;

/// The bytes of a VPE's memory at the start.
const MEMORY: u32 = 65_536;

/// The most messages in a link.
const WINDOW: u32 = 4;

/// The setup of the words of the seed: 1 to 128 VPEs, each with that many calls, at most 20,000
/// calls in all. There is a kernel for each four VPEs, and no service, deny or kill.
pub fn generate(alloc: Global, seed: u64, vpes: u32, calls: u32) -> Result<Setup, OutOfMemory>
    requires vpes { (1 ≤ vpes) × (vpes ≤ 128) }
    requires calls { vpes * calls ≤ 20000 }
    ensures { IfOk result (λ setup. setup ≡ generated seed vpes calls) }
{
    let kernels = (vpes + 3) / 4;
    Ok(Setup {
        version: version_of(vpes),
        window: WINDOW,
        kernels,
        owners: own(vpes, kernels),
        vpes: declare(alloc, seed, vpes, calls)?,
        services: Services::new(alloc),
        offers: Offers::new(alloc),
        denies: Denies::new(alloc),
        kills: Kills::new(alloc),
    })
}

// The first version that has room for that many VPEs.
fn version_of(vpes: u32) -> u8
    ensures { result ≡ version_spec vpes }
{
    if vpes > 64 { 2 } else { 1 }
}

// One PE for each VPE, dealt out to the kernels in turn.
fn own(vpes: u32, kernels: u32) -> Membership
    requires few { vpes ≤ 128 }
    requires some_kernel { 1 ≤ kernels }
    requires few_kernels { kernels ≤ KERNELS }
    ensures { result ≡ record { kernels = kernels; owners = owners_spec kernels vpes } }
{
    let mut owners = Membership::empty(kernels);
    for pe in 0..vpes {
        owners.set(pe as u8, pe % kernels).unwrap();
    }
    owners
}

// The VPEs, each with the calls of its words.
fn declare(alloc: Global, seed: u64, vpes: u32, calls: u32) -> Result<Vpes0, OutOfMemory>
    requires some { 1 ≤ vpes }
    requires few { vpes ≤ 128 }
    ensures { IfOk result (λ list. list ≡ map (vpe_spec seed vpes calls) (range_with_len 0 vpes)) }
{
    let mut words = Lcg64Xsh32::new(seed, 1);
    let mut list = Vpes0::new(alloc);
    for vpe in 0..vpes {
        list.push(VpeDecl {
            vpe: vpe as u16,
            pe: vpe as u8,
            roots: roots_of(alloc, vpe)?,
            calls: draw_calls(alloc, &mut words, vpes, calls)?,
        })?;
    }
    Ok(list)
}

// What a VPE holds at the start: memory of its own.
fn roots_of(alloc: Global, vpe: u32) -> Result<Roots, OutOfMemory>
    requires { vpe < 128 }
    ensures { IfOk result (λ roots. roots ≡ roots_spec vpe) }
{
    let mut roots = Roots::new(alloc);
    roots.push(Root {
        sel: 0,
        object: Object::Mem {
            base: vpe * MEMORY,
            len: MEMORY,
            rights: RIGHTS,
        },
    })?;
    Ok(roots)
}
