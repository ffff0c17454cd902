// What seats at the turn know, the rule, and the steps.
use crate::name::RunName;
use atomic_table::{Join, Play, Split, TableRule};
use sem_fabric::Fabric;
use sem_msg::{Entry, Setup};
use std::collections::LinkedList;
use std::marker::PhantomData;

/// A kernel that a seat carries, with the kernel's entries so far, and whether the seat knows of a
/// place of that kernel in the journal. No code makes a value of it.
pub struct Share {
    pub kernel: u32,
    pub entries: LinkedList<Entry>,
    pub placed: bool,
}

/// What a seat knows: the kernels that it carries, and, while it holds the turn, the fabric as it
/// took it. No code makes a value of it.
pub struct View {
    pub shares: LinkedList<Share>,
    pub taken: Option<Fabric>,
}

/// The rule of the turn.
pub struct InTurn;

impl TableRule<Option<Fabric>, View, Setup> for InTurn {
    ghost use Rattle.sem_turn.specs.Rule.{IsInTurn, first_view};

    ghost holds = { λ T s. IsInTurn T s };

    ghost first = { λ T. first_view T.kernels };
}

/// The step that takes, or finds the turn held.
pub struct Take<N> {
    of: PhantomData<N>,
}

impl<N: RunName> Play<Option<Fabric>, View> for Take<N> {
    ghost use Rattle.sem_turn.specs.Steps.{TakesOut};

    ghost then = { TakesOut N.setup };
}

/// The step that gives back.
pub struct Return;

impl Play<Option<Fabric>, View> for Return {
    ghost use Rattle.sem_turn.specs.Steps.{Returns};

    ghost then = { Returns };
}

/// The step that cuts the first kernel off.
pub struct Cut;

impl Split<View> for Cut {
    ghost use Rattle.sem_turn.specs.Steps.{cut_rest, cut_front};

    ghost left = { cut_rest };

    ghost right = { cut_front };
}

/// The step that joins two seats.
pub struct Glue;

impl Join<View> for Glue {
    ghost use Rattle.sem_turn.specs.Steps.{glued, nobody};

    ghost both = { glued };

    ghost spent = { nobody };
}
