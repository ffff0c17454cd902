ghost use Rattle.std.specs.Prelude.{◌≡◌, ◌<◌, ◌∷◌, ◌++◌, ◌==◌, ℕ, [], length, All};
ghost use Rattle.std.specs.Prelude.{IfOk, IfSome, IfNone, IsSomeAnd, None, Some, true, false};
ghost use Rattle.sem_msg.specs.Journal.{part};
ghost use Rattle.sem_turn.specs.Passes.{new_pass, new_passes, times, has_place, IsWhole, Follows};
ghost use Rattle.sem_turn.specs.Rule.{IsShareOf, carries, first_view, share, view as view_of};
ghost use Rattle.sem_turn.specs.Steps.{rest_of};
ghost use Rattle.sem_turn.specs.Seats.{IsIdleSeat};

use crate::name::RunName;
use crate::opened::{Board, Place};
use crate::pass::Pass;
use crate::passes::Passes;
use crate::rule::{Cut, Glue, Return, Take};
use sem_fabric::Fabric;
use sem_key::OutOfMemory;
use std::alloc::Global;
use std::hint;
use std::marker::PhantomData;
use std::sync::Wait;
use std::sync::atomic::{AtomicU64, Ordering};

// How often a thread tries to take the turn before it gives up its processor.
const TRIES: u32 = 64;

/// The fabric, which one pass at a time takes out. The word of the table is 1 while it is out, and
/// 0 otherwise; the fabric stands in the only slot. Neither `give_back` nor `close` takes memory.
#[derive(Drop)]
pub struct Turn<N: RunName> {
    // How many threads sleep until the turn is free, or are about to sleep.
    pub(crate) sleepers: AtomicU64,
    pub(crate) board: Board,
    pub(crate) of: PhantomData<N>,
    ghost named: { (board.shared.table_id ≡ N.table) × (board.shared.key ≡ N.setup) },
    ghost sized: { (board.shared.table_id.words ≡ 1) × (board.shared.table_id.slots ≡ 1) },
    ghost some_kernel: { 0 < N.setup.kernels },
}

/// The first seat, which carries all kernels.
#[derive(Drop)]
pub struct First<N: RunName> {
    pub(crate) seat: Place,
    pub(crate) of: PhantomData<N>,
    ghost named: { (seat.table_id ≡ N.table) × (seat.me ≡ (first_view N.setup.kernels, [])) },
}

impl<N: RunName> Turn<N> {
    /// Waits for the turn, and takes the fabric. The fabric is whole. In its journal the entries of
    /// the pass's kernel are those of the pass, and the kernel has a place if the pass says so.
    pub fn take<W: Wait>(&self, rt: &W, pass: &mut Pass<N>) -> Fabric
        requires { pass.old.taken ≡ None }
        ensures pass { pass.new ≡ record pass.old { taken = Some result } }
        ensures kernel { pass.old.kernel < N.setup.kernels }
        ensures entries { pass.old.entries ≡ part result.journal pass.old.kernel }
        ensures place { pass.old.placed ≡ true → has_place result pass.old.kernel ≡ true }
        ensures whole { IsWhole N.setup result }
    {
        let mut tries = 0;
        for _ in rt.forever() {
            if let Some(fabric) = self.try_take(pass) {
                return fabric;
            }
            if tries < TRIES {
                tries += 1;
                hint::spin_loop();
            } else {
                self.sleep(rt);
            }
        }
        unreachable!()
    }

    // Sleeps unless the turn is free. No wake is lost: a thread is counted before it looks at the
    // word, and a thread that gives back frees the word before it looks at the count.
    fn sleep<W: Wait>(&self, rt: &W) {
        self.sleepers.fetch_add(1, Ordering::SeqCst);
        self.board.shared.park(rt, 0, 1);
        self.sleepers.fetch_sub(1, Ordering::SeqCst);
    }

    // The fabric, as `take` gives it; none if another pass has the turn.
    fn try_take(&self, pass: &mut Pass<N>) -> Option<Fabric>
        requires { pass.old.taken ≡ None }
        ensures none { IfNone result (pass.new ≡ pass.old) }
        ensures pass { IfSome result (λ f. pass.new ≡ record pass.old { taken = Some f }) }
        ensures kernel { pass.old.kernel < N.setup.kernels }
        ensures entries { IfSome result (λ f. pass.old.entries ≡ part f.journal pass.old.kernel) }
        ensures place { IfSome result (λ f. pass.old.placed ≡ true →
            has_place f pass.old.kernel ≡ true) }
        ensures whole { IfSome result (IsWhole N.setup) }
    {
        self.try_out(&mut pass.seat)
    }

    // Takes the fabric out of its slot; none if another seat has the turn.
    fn try_out(&self, seat: &mut Place) -> Option<Fabric>
        requires idle { IsIdleSeat N.table seat.old }
        requires carries { 0 < length seat.old.me.0.shares }
        ensures table { seat.new.table_id ≡ N.table }
        ensures none { IfNone result (seat.new.me ≡ seat.old.me) }
        ensures seat { IfSome result (λ f. seat.new.me ≡ (
          view_of seat.old.me.0.shares (Some f),
          (0, None) ∷ [],
        )) }
        ensures fits { IfSome result (λ f. All (IsShareOf f) seat.old.me.0.shares) }
        ensures whole { IfSome result (IsWhole N.setup) }
    {
        if self.board.shared.compare_exchange::<Take<N>>(seat, 0, 0, 1) == 0 {
            self.board.shared.exchange(seat, 0, None)
        } else {
            None
        }
    }

    /// Gives the fabric back, unchanged or with one more entry of the pass's kernel.
    pub fn give_back(&self, pass: &mut Pass<N>, fabric: Fabric)
        requires held { IsSomeAnd pass.old.taken (λ f. Follows pass.old.kernel f fabric) }
        requires whole { IsWhole N.setup fabric }
        ensures { pass.new ≡ record pass.old {
          entries = part fabric.journal pass.old.kernel;
          placed = has_place fabric pass.old.kernel;
          taken = None;
        } }
    {
        match self.board.shared.exchange(&mut pass.seat, 0, Some(fabric)) {
            None => {}
            Some(_) => unreachable!(),
        }
        self.board.shared.store::<Return>(&mut pass.seat, 0, 0);
        if self.sleepers.load(Ordering::SeqCst) != 0 {
            self.board.shared.wake_one(0);
        }
    }

    /// One pass for each kernel, in order. If memory is refused, the passes are dropped.
    pub fn split(
        &self,
        alloc: Global,
        first: First<N>,
        kernels: u32,
    ) -> Result<Passes<N>, OutOfMemory>
        requires { kernels ≡ N.setup.kernels }
        ensures { IfOk result (λ passes. passes ≡ new_passes N.setup.kernels) }
    {
        let First { mut seat, of: _ } = first;
        let mut passes = Passes::new(alloc);
        for kernel in 0..kernels {
            passes.push(self.cut(&mut seat, kernel))?;
        }
        Ok(passes)
    }

    // A pass for the first kernel that the seat carries; the seat keeps the others.
    fn cut(&self, seat: &mut Place, kernel: u32) -> Pass<N>
        requires table { seat.old.table_id ≡ N.table }
        requires front { seat.old.me
            ≡ (view_of (share kernel [] false ∷ rest_of seat.old.me.0.shares) None, []) }
        requires kernel { kernel < N.setup.kernels }
        ensures table { seat.new.table_id ≡ N.table }
        ensures rest { seat.new.me ≡ (view_of (rest_of seat.old.me.0.shares) None, []) }
        ensures pass { result ≡ new_pass kernel }
    {
        Pass {
            kernel,
            seat: self.board.shared.split_seat::<Cut>(seat),
            of: PhantomData,
        }
    }

    /// The fabric, once all passes are back: one for each kernel, with the kernel's part of the
    /// journal.
    pub fn close(self, mut passes: Passes<N>) -> Fabric
        requires count { length passes ≡ N.setup.kernels }
        requires free { All (λ p. p.taken ≡ None) passes }
        ensures parts { All (λ p. p.entries ≡ part result.journal p.kernel) passes }
        ensures once { (k : ℕ) → k < N.setup.kernels → times k passes ≡ 1 }
        ensures whole { IsWhole N.setup result }
    {
        let Some(last) = passes.pop() else {
            unreachable!()
        };
        let mut seat = last.into_seat();
        while let Some(pass) = passes.pop() {
            self.join(&mut seat, pass);
        }
        self.finish(seat)
    }

    // Lets the seat carry the pass's kernel too.
    fn join(&self, seat: &mut Place, pass: Pass<N>)
        requires seat { IsIdleSeat N.table seat.old }
        requires pass { pass.taken ≡ None }
        ensures idle { IsIdleSeat N.table seat.new }
        ensures carries { seat.new.me.0.shares ≡ seat.old.me.0.shares
            ++ share pass.kernel pass.entries pass.placed ∷ [] }
    {
        self.board.shared.join_seat::<Glue>(seat, pass.into_seat());
    }

    // The fabric, once one seat carries all kernels.
    fn finish(self, seat: Place) -> Fabric
        requires idle { IsIdleSeat N.table seat }
        requires count { length seat.me.0.shares ≡ N.setup.kernels }
        ensures fits { All (IsShareOf result) seat.me.0.shares }
        ensures once { (k : ℕ) → k < N.setup.kernels → carries k seat.me.0 ≡ 1 }
        ensures whole { IsWhole N.setup result }
    {
        let Turn {
            sleepers: _,
            board,
            of: _,
        } = self;
        let mut closed = board.close_with(seat);
        let fabric = closed.take(0);
        closed.free();
        match fabric {
            Some(fabric) => fabric,
            None => unreachable!(),
        }
    }
}
