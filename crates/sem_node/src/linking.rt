// What a kernel does with the links while it has the turn: it tests, steps and enters. A later turn
// would not know what an earlier one showed of the links.
ghost use Rattle.std.specs.Prelude.{◌≡◌, ◌<◌, true};
ghost use Rattle.std.specs.Result.{result_ok};
ghost use Rattle.sem_kernel.specs.Worlds.{NamesPeer};
ghost use Rattle.sem_turn.specs.Passes.{has_place};
ghost use Rattle.sem_node.specs.Stepping.{IsReadyToTry, HasTried};
ghost use Rattle.sem_node.specs.Telling.{has_moved};

use crate::gate::{Gated, Permit};
use crate::places::next_place;
use sem_fabric::Fabric;
use sem_key::OutOfMemory;
use sem_msg::Act;

/// What became of a fetch or a flush, and what it saw of its link.
#[derive(Clone, Copy, Debug, PartialEq, Eq)]
pub struct Linked {
    /// Whether it was done.
    pub done: bool,
    /// Whether the link was full before.
    pub full: bool,
    /// Whether the link still holds a message after the fetch.
    pub more: bool,
}

// Whether the link of a fetch is full, and whether it holds more than one message.
fn fetched_link(fabric: &Fabric, kernel: u32, act: Act) -> (bool, bool)
    requires kernel { kernel < fabric.now.kernels }
    requires peer { NamesPeer fabric.now.kernels kernel act }
{
    match act {
        Act::Fetch { from } => (fabric.full(from, kernel), fabric.waiting(from, kernel) > 1),
        _ => (false, false),
    }
}

// Does a fetch or a flush, if the link allows it.
fn link_step(kernel: &mut Gated, fabric: &mut Fabric, permit: Permit, act: Act) -> Linked
    requires can { IsReadyToTry kernel.old fabric.old act }
    requires place { has_place fabric.old kernel.old.id ≡ true }
    requires permit { permit ≡ record { kernel = kernel.old.id; act = act } }
    ensures { HasTried result.done kernel.old fabric.old act kernel.new fabric.new }
{
    if !act.only_moves() {
        return Linked {
            done: false,
            full: false,
            more: false,
        };
    }
    let (full, more) = fetched_link(fabric, kernel.id(), act);
    let done = kernel.try_step(permit, fabric, act).is_some();
    Linked { done, full, more }
}

// The same, once the kernel has a place in the journal.
fn placed_step(
    kernel: &mut Gated,
    fabric: &mut Fabric,
    permit: Permit,
    act: Act,
) -> Result<Linked, OutOfMemory>
    requires can { IsReadyToTry kernel.old fabric.old act }
    requires permit { permit ≡ record { kernel = kernel.old.id; act = act } }
    ensures { HasTried (has_moved (result_ok result)) kernel.old fabric.old act kernel.new
        fabric.new }
{
    fabric.reserve(kernel.id())?;
    Ok(link_step(kernel, fabric, permit, act))
}

/// What a turn shows in which a kernel tried a fetch or a flush.
#[derive(Clone, Copy, Debug)]
pub struct Tried {
    pub linked: Result<Linked, OutOfMemory>,
    /// Whether the kernel has its next place in the journal.
    pub placed: bool,
}

// Makes a place, does a fetch or a flush, if the link allows it, and makes the next place.
pub fn turn_step(kernel: &mut Gated, fabric: &mut Fabric, permit: Permit, act: Act) -> Tried
    requires can { IsReadyToTry kernel.old fabric.old act }
    requires permit { permit ≡ record { kernel = kernel.old.id; act = act } }
    ensures tried { HasTried (has_moved (result_ok result.linked)) kernel.old fabric.old act
        kernel.new fabric.new }
    ensures place { result.placed ≡ true → has_place fabric.new kernel.old.id ≡ true }
{
    let id = kernel.id();
    let linked = placed_step(kernel, fabric, permit, act);
    let placed = next_place(fabric, id);
    Tried { linked, placed }
}
