// The VPEs of a kernel.
ghost use Rattle.std.specs.Prelude.{◌≡◌, IfOk};
ghost use Rattle.sem_kernel.specs.Owning.{own_rows};

use sem_key::OutOfMemory;
use sem_msg::Setup;
use std::alloc::Global;

/// A VPE of a kernel, and how many calls it makes.
#[derive(Clone, Copy, Debug)]
pub struct OwnVpe {
    pub vpe: u16,
    pub calls: usize,
}

// The VPEs of the kernel, by number.
pub fn own_vpes(alloc: Global, setup: &Setup, kernel: u32) -> Result<Vec<OwnVpe>, OutOfMemory>
    ensures { IfOk result (λ own. own.items ≡ own_rows setup.now kernel) }
{
    setup
        .vpes
        .as_slice()
        .iter()
        .filter(|decl| setup.pe_owner(decl.pe) == kernel)
        .map(|decl| OwnVpe {
            vpe: decl.vpe,
            calls: decl.calls.len(),
        })
        .collect(alloc)
}
