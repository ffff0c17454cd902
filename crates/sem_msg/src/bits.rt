// Masks of kernels, which have a bit for each.
ghost use Rattle.std.specs.Prelude.{◌==◌, ◌&&◌, not, if◌then◌else◌};
ghost use Rattle.sem_msg.specs.Masks.{has_bit, IsMaskOf};

use sem_key::KERNELS;

/// The mask with a bit for the kernel, or with none for it.
pub fn with_bit(mask: u32, kernel: u32, set: bool) -> u32
    ensures { IsMaskOf (λ k. if k == kernel then set else has_bit mask k) result }
{
    if kernel >= KERNELS {
        mask
    } else if set {
        mask | 1 << kernel
    } else {
        mask & !(1 << kernel)
    }
}

/// The mask with the bits that the other one does not have.
pub fn without(mask: u32, other: u32) -> u32
    ensures { IsMaskOf (λ k. has_bit mask k && not (has_bit other k)) result }
{
    mask & !other
}
