ghost use Rattle.std.specs.Prelude.{◌≡◌, ◌<◌, ◌∷◌, [], None};
ghost use Rattle.sem_turn.specs.Rule.{share};
ghost use Rattle.sem_turn.specs.Seats.{IsIdleSeat};

use crate::name::RunName;
use crate::rule::View;
use atomic_table::Seat;
use sem_fabric::Fabric;
use std::marker::{Model, PhantomData};

/// The right to take the turn for one kernel.
#[derive(Drop)]
pub struct Pass<N: RunName> {
    pub(crate) kernel: u32,
    pub(crate) seat: Seat<Option<Fabric>, View>,
    pub(crate) of: PhantomData<N>,
}

impl<N: RunName> Model for Pass<N> {
    ghost use Rattle.std.specs.Prelude.{◌≡◌, ◌<◌, ◌∷◌, []};
    ghost use Rattle.sem_turn.specs.Passes.{PassValue};
    ghost use Rattle.sem_turn.specs.Rule.{view as view_of, share};
    ghost use Rattle.sem_turn.specs.Seats.{first_entries, placed_of, out_with};

    ghost Value = { PassValue };

    ghost view = { λ p. record {
      kernel = p.kernel;
      entries = first_entries p.seat.me.0.shares;
      placed = placed_of p.seat.me.0.shares;
      taken = p.seat.me.0.taken;
    } };

    ghost invariant = { λ p.
        (p.seat.table_id ≡ N.table)
        × (p.kernel < N.setup.kernels)
        × (p.seat.me ≡ (
          view_of
              (share p.kernel (first_entries p.seat.me.0.shares) (placed_of p.seat.me.0.shares) ∷ [])
              p.seat.me.0.taken,
          out_with p.seat.me.0.taken,
        )) };
}

impl<N: RunName> Pass<N> {
    /// The number of the kernel that it takes the turn for.
    pub fn kernel(&self) -> u32
        ensures number { result ≡ self.now.kernel }
        ensures below { result < N.setup.kernels }
    {
        self.kernel
    }

    // The pass's seat, which carries its kernel.
    pub(crate) fn into_seat(self) -> Seat<Option<Fabric>, View>
        requires { self.taken ≡ None }
        ensures idle { IsIdleSeat N.table result }
        ensures carries { result.me.0.shares ≡ share self.kernel self.entries self.placed ∷ [] }
    {
        let Pass {
            kernel: _,
            seat,
            of: _,
        } = self;
        seat
    }
}
