// What the versions of a text allow.
ghost use Rattle.std.specs.Prelude.{◌≡◌, ◌≤◌};
ghost use Rattle.sem_key.specs.declared.limits.TheConstants.{VPES as VPES_SPEC};
ghost use Rattle.sem_key.specs.declared.limits.TheConstants.{KERNELS as KERNELS_SPEC};
ghost use Rattle.sem_msg.specs.Versions.{most_kernels as most_kernels_spec};
ghost use Rattle.sem_msg.specs.Versions.{most_vpes as most_vpes_spec};

use sem_key::{KERNELS, VPES};

/// How many messages a link holds if the text does not say it.
pub const LINK_WINDOW: u32 = 4;

/// The most kernels that a text of the version can declare.
pub fn most_kernels(version: u8) -> u32
    ensures number { result ≡ most_kernels_spec version }
    ensures most { result ≤ KERNELS_SPEC }
{
    if version == 1 { 16 } else { KERNELS }
}

/// The most VPEs, and the most PEs, that a text of the version can name.
pub fn most_vpes(version: u8) -> u16
    ensures number { result ≡ most_vpes_spec version }
    ensures least { 1 ≤ result }
    ensures most { result ≤ VPES_SPEC }
{
    if version == 1 { 64 } else { VPES }
}
