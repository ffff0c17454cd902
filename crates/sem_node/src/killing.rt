// The entry of a kill. It tells nothing of the kernel's step, so the step can come after the turn.
ghost use Rattle.std.specs.Prelude.{◌≡◌, ◌++◌, ◌∷◌, [], MatchBool, None, true};
ghost use Rattle.sem_msg.specs.declared.event.Act.TheVariants.{Kill};
ghost use Rattle.sem_machine.specs.Machine.{local_entry};
ghost use Rattle.sem_turn.specs.Passes.{has_place};
ghost use Rattle.sem_node.specs.Killing.{CanPut, HasPut};

use crate::gate::Gated;
use crate::places::next_place;
use sem_fabric::Fabric;
use sem_msg::{Act, Detail, Entry, Event};
use sem_turn::{Pass, RunName, Turn};
use std::sync::Wait;

/// What a turn shows that tried a kill.
#[derive(Clone, Copy, Debug)]
pub struct Killed {
    /// Whether the kill was due, and so entered.
    pub due: bool,
    /// Whether the kernel has its next place in the journal.
    pub placed: bool,
}

// Enters the kill of the VPE, if it is due, and makes the next place.
fn put(kernel: &Gated, fabric: &mut Fabric, vpe: u16) -> Killed
    requires { CanPut kernel.now fabric.old vpe }
    ensures put { HasPut result.due kernel.now fabric.old vpe fabric.new }
    ensures place { result.placed ≡ true → has_place fabric.new kernel.now.id ≡ true }
{
    let act = Act::Kill { vpe };
    let kernel_number = kernel.id();
    if !kernel.enabled(act, fabric.replies()) {
        return Killed {
            due: false,
            placed: true,
        };
    }
    fabric.enter(Entry {
        event: Event {
            kernel: kernel_number,
            act,
        },
        detail: Detail::Nothing,
        grant: None,
        cut: None,
        reply: None,
    });
    let placed = next_place(fabric, kernel_number);
    Killed { due: true, placed }
}

// The same in one turn of the kernel's pass.
pub fn enter_kill<N: RunName, W: Wait>(
    rt: &W,
    turn: &Turn<N>,
    pass: &mut Pass<N>,
    kernel: &Gated,
    vpe: u16,
) -> Killed
    requires free { pass.old.taken ≡ None }
    requires place { pass.old.placed ≡ true }
    requires kernel { kernel.now.id ≡ pass.old.kernel }
    requires setup { kernel.now.setup ≡ N.setup }
    ensures kernel { pass.new.kernel ≡ pass.old.kernel }
    ensures entries { MatchBool result.due (pass.new.entries ≡ pass.old.entries
        ++ local_entry kernel.now.setup kernel.now.id kernel.now.side (Kill vpe) None ∷ [])
        (pass.new.entries ≡ pass.old.entries) }
    ensures free { pass.new.taken ≡ None }
    ensures place { result.placed ≡ true → pass.new.placed ≡ true }
{
    let mut fabric = turn.take(rt, pass);
    let killed = put(kernel, &mut fabric, vpe);
    turn.give_back(pass, fabric);
    killed
}
