ghost use Rattle.std.specs.Prelude.{◌≡◌, IfOk};
ghost use Rattle.sem_fabric.specs.Fabrics.{new_fabric};

use crate::name::RunName;
use crate::rule::{InTurn, View};
use crate::turn::{First, Turn};
use atomic_table::{Seat, Table};
use sem_fabric::Fabric;
use sem_key::OutOfMemory;
use sem_msg::Setup;
use std::alloc::Global;
use std::marker::{Model, PhantomData};
use std::sync::atomic::AtomicU64;

/// The table with the fabric.
pub type Board = Table<Option<Fabric>, View, Setup, InTurn, Global>;

/// A seat at the table.
pub type Place = Seat<Option<Fabric>, View>;

/// The table and its first seat, with no name yet. Only `new` takes memory.
#[derive(Drop)]
pub struct Opened {
    board: Board,
    seat: Place,
}

impl Model for Opened {
    ghost use Rattle.std.specs.Prelude.{◌≡◌, ◌<◌, []};
    ghost use Rattle.sem_turn.specs.Passes.{OpenedValue};
    ghost use Rattle.sem_turn.specs.Rule.{first_view};

    ghost Value = { OpenedValue };

    ghost view = { λ o. record { table = o.board.shared.table_id; setup = o.board.shared.key } };

    ghost invariant = { λ o.
        (0 < o.board.shared.key.kernels)
        × (o.board.shared.table_id.words ≡ 1)
        × (o.board.shared.table_id.slots ≡ 1)
        × (o.seat.table_id ≡ o.board.shared.table_id)
        × (o.seat.me ≡ (first_view o.board.shared.key.kernels, [])) };
}

impl Opened {
    /// A table with the fabric, a new one of the setup. If memory is refused, the fabric is
    /// dropped.
    pub fn new(alloc: Global, setup: &Setup, fabric: Fabric) -> Result<Self, OutOfMemory>
        requires { fabric ≡ new_fabric setup.now }
        ensures { IfOk result (λ opened. opened.setup ≡ setup.now) }
    {
        let kernels = setup.kernels;
        prove!(kernels > 0);
        let mut slots = Vec::new(alloc);
        slots.push(Some(fabric))?;
        match Table::new(alloc, &[0], slots, setup) {
            Ok((board, seat)) => Ok(Opened { board, seat }),
            Err(_) => Err(OutOfMemory),
        }
    }

    /// The turn and the first seat, under a name that stands for this table and this setup.
    pub fn named<N: RunName>(self) -> (Turn<N>, First<N>)
        requires table { self.table ≡ N.table }
        requires setup { self.setup ≡ N.setup }
    {
        let Opened { board, seat } = self;
        (
            Turn {
                sleepers: AtomicU64::new(0),
                board,
                of: PhantomData,
            },
            First {
                seat,
                of: PhantomData,
            },
        )
    }
}
