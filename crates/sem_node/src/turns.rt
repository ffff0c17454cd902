// What a pass does in a turn of its own.
ghost use Rattle.std.specs.Prelude.{◌≡◌, true, ◌∷◌, [], ◌++◌, OnOk, None};
ghost use Rattle.sem_msg.specs.Fabric.{IsOwnAct};

use crate::places::next_place;
use sem_fabric::entries_keep_agreement;
use sem_key::OutOfMemory;
use sem_msg::Entry;
use sem_turn::{Pass, RunName, Turn};
use std::sync::Wait;

// Gives the pass's kernel a place in the journal. This takes a turn, unless the kernel has a place.
pub fn reserve<N: RunName, W: Wait>(
    rt: &W,
    turn: &Turn<N>,
    pass: &mut Pass<N>,
    placed: bool,
) -> Result<(), OutOfMemory>
    requires free { pass.old.taken ≡ None }
    requires kept { placed ≡ true → pass.old.placed ≡ true }
    ensures same { pass.new ≡ record pass.old { placed = pass.new.placed } }
    ensures ok { OnOk result (pass.new.placed ≡ true) }
    ensures kept { placed ≡ true → pass.new.placed ≡ true }
{
    if placed {
        return Ok(());
    }
    let kernel = pass.kernel();
    let mut fabric = turn.take(rt, pass);
    let reserved = fabric.reserve(kernel);
    turn.give_back(pass, fabric);
    reserved
}

/// What a turn shows in which an entry was entered.
#[derive(Clone, Copy, Debug)]
pub struct Entered {
    /// Whether the kernel has its next place in the journal.
    pub placed: bool,
    /// How many replies the journal has.
    pub replies: u64,
}

// Enters the entry of an act that the pass's kernel did alone, at the kernel's place, and makes its
// next place.
pub fn enter<N: RunName, W: Wait>(
    rt: &W,
    turn: &Turn<N>,
    pass: &mut Pass<N>,
    entry: Entry,
) -> Entered
    requires free { pass.old.taken ≡ None }
    requires place { pass.old.placed ≡ true }
    requires kernel { entry.event.kernel ≡ pass.old.kernel }
    requires own { IsOwnAct entry.event.act }
    ensures kernel { pass.new.kernel ≡ pass.old.kernel }
    ensures entries { pass.new.entries ≡ pass.old.entries ++ entry ∷ [] }
    ensures free { pass.new.taken ≡ None }
    ensures place { result.placed ≡ true → pass.new.placed ≡ true }
{
    let kernel = pass.kernel();
    let mut fabric = turn.take(rt, pass);
    entries_keep_agreement();
    fabric.enter(entry);
    let replies = fabric.replies();
    let placed = next_place(&mut fabric, kernel);
    turn.give_back(pass, fabric);
    Entered { placed, replies }
}
