// What an act of a kernel needs from the fabric.
ghost use Rattle.std.specs.Prelude.{◌≡◌, ◌<◌, true};
ghost use Rattle.sem_msg.specs.declared.event.Act.TheVariants.{Flush};
ghost use Rattle.sem_kernel.specs.KernelValue.{IsInput};
ghost use Rattle.sem_kernel.specs.Worlds.{is_passable as is_passable_spec, taken, fabric_moved};
ghost use Rattle.sem_kernel.specs.Worlds.{NamesPeer, CanDo};

use crate::kernel::Kernel;
use sem_fabric::Fabric;
use sem_msg::{Act, Message};

// Whether the links allow the act of the kernel.
pub fn is_passable(fabric: &Fabric, kernel: u32, act: Act) -> bool
    requires kernel { kernel < fabric.now.kernels }
    requires peer { NamesPeer fabric.now.kernels kernel act }
    ensures { result ≡ is_passable_spec fabric.now kernel act }
{
    match act {
        Act::Fetch { from } => fabric.waiting(from, kernel) > 0,
        Act::Flush { to } => !fabric.full(kernel, to),
        _ => true,
    }
}

// Moves the message of the act: a fetch takes the oldest one out of a link and returns it, a flush
// moves the oldest waiting one into a link.
pub fn carry(kernel: &Kernel, fabric: &mut Fabric, act: Act) -> Option<Message>
    requires { CanDo kernel.now fabric.old act }
    ensures taken { result ≡ taken fabric.old kernel.now.id act }
    ensures input { IsInput act result }
    ensures carried { fabric.new ≡ fabric_moved kernel.now.id kernel.now.side act fabric.old }
{
    match act {
        Act::Fetch { from } => fabric.fetch(kernel.id(), from),
        Act::Flush { to } => {
            send(kernel, fabric, to);
            None
        }
        _ => None,
    }
}

// Moves the oldest message that waits for the kernel `to` into its link.
fn send(kernel: &Kernel, fabric: &mut Fabric, to: u32)
    requires { CanDo kernel.now fabric.old (Flush to) }
    ensures { fabric.new ≡ fabric_moved kernel.now.id kernel.now.side (Flush to) fabric.old }
{
    let Some(message) = kernel.front(to) else {
        unreachable!()
    };
    let Ok(()) = fabric.flush(kernel.id(), to, message) else {
        unreachable!()
    };
}
