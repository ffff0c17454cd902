// Kernels and their fabric at the start of a run.
ghost use Rattle.std.specs.Prelude.{◌≡◌, [], IfOk};
ghost use Rattle.sem_kernel.specs.Standing.{StandsAt};

use crate::kernel::Kernel;
use crate::world::boot_kernels;
use sem_fabric::Fabric;
use sem_key::OutOfMemory;
use sem_msg::{Journal, Setup};
use std::alloc::Global;

/// The kernels of the setup and their fabric at the start of a run. The journal must be empty, and
/// goes into the fabric; if memory is refused, it is dropped.
pub fn boot(
    alloc: Global,
    setup: &Setup,
    journal: Journal,
) -> Result<(Vec<Kernel>, Fabric), OutOfMemory>
    requires { journal.entries ≡ [] }
    ensures stand { IfOk result (λ r. StandsAt setup.now r.0.items r.1) }
    ensures journal { IfOk result (λ r. r.1.journal ≡ []) }
{
    setup.keeps_its_rules();
    let kernels = boot_kernels(alloc, setup)?;
    let fabric = Fabric::new(alloc, setup, journal)?;
    Ok((kernels, fabric))
}
