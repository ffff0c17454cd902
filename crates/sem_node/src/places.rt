// The place in the journal that a kernel needs for its next entry.
ghost use Rattle.std.specs.Prelude.{◌≡◌, ◌<◌, true};
ghost use Rattle.sem_turn.specs.Passes.{has_place};
ghost use Rattle.sem_node.specs.Stepping.{MayGetPlace};

use sem_fabric::Fabric;

// Makes the kernel's next place, and returns whether the kernel has one then. If memory is refused
// now, the next act asks again.
pub fn next_place(fabric: &mut Fabric, kernel: u32) -> bool
    requires { kernel < fabric.old.kernels }
    ensures same { MayGetPlace kernel fabric.old fabric.new }
    ensures place { result ≡ true → has_place fabric.new kernel ≡ true }
{
    fabric.reserve(kernel).is_ok()
}
