// The asks of a VPE and its waiting call, on the stores of its kernel.
ghost use Rattle.std.specs.Prelude.{◌≡◌, true, is_some, slice_get};
ghost use Rattle.std.specs.Option.{option_and_then};
ghost use Rattle.sem_machine.specs.Sides.{row, parked};
ghost use Rattle.sem_machine.specs.Upcalls.{upcall_row};
ghost use Rattle.sem_machine.specs.Resumes.{resume_row, can_resume};
ghost use Rattle.sem_kernel.specs.KernelStores.{side_of};
ghost use Rattle.sem_kernel.specs.Handing.{CanCall, HasCalled};
ghost use Rattle.sem_kernel.specs.Rooms.{HasRoom, asked_parent, resumed_parent};
ghost use Rattle.sem_kernel.specs.Ending.{ends_obtain as ends_obtain_spec};
ghost use Rattle.sem_kernel.specs.Ending.{ends_delegate as ends_delegate_spec};

use crate::stores::Stores;
use sem_delegate::{delegate_resume, delegate_upcall, ready_resume};
use sem_msg::{Ask, Outcome, Parked, Setup};
use sem_obtain::{obtain_resume, obtain_upcall};

impl Stores {
    // The oldest ask that waits for the VPE asks it for its consent, and it decides.
    pub fn upcall(&mut self, setup: &Setup, kernel: u32, vpe: u16) -> Outcome
        requires can { CanCall setup.now kernel vpe self.old }
        requires asked { is_some (slice_get (row (side_of self.old) vpe).asks 0) ≡ true }
        requires room { HasRoom
            (option_and_then (asked_parent setup.now (side_of self.old) vpe)
            (slice_get (row (side_of self.old) vpe).asks 0)) self.old }
        ensures { HasCalled setup.now kernel self.new result
            (upcall_row setup.now kernel (side_of self.old) vpe) }
    {
        let ask = self.vpes.next_ask(vpe);
        lend!(self => caps, vpes, park, pendings, outs);
        match &ask {
            Some(Ask::Obtain { place, target }) => {
                obtain_upcall(setup, kernel, vpe, *place, *target, caps, vpes, park, outs)
            }
            Some(
                Ask::Delegate {
                    parent,
                    object,
                    sel,
                },
            ) => delegate_upcall(
                setup, kernel, vpe, *parent, *object, *sel, caps, vpes, park, pendings, outs,
            ),
            None => unreachable!(),
        }
    }

    // Lets the waiting call of the VPE go on.
    pub fn resume(&mut self, setup: &Setup, kernel: u32, vpe: u16) -> Outcome
        requires can { CanCall setup.now kernel vpe self.old }
        requires resumes { can_resume (parked (side_of self.old) vpe) ≡ true }
        requires room { HasRoom (resumed_parent (parked (side_of self.old) vpe)) self.old }
        ensures { HasCalled setup.now kernel self.new result
            (resume_row setup.now (side_of self.old) vpe) }
    {
        let state = self.park.state(vpe);
        if ends_obtain(&state) {
            return obtain_resume(vpe, &mut self.caps, &mut self.vpes, &mut self.park);
        }
        if ends_delegate(&state) {
            return delegate_resume(setup, vpe, &mut self.caps, &mut self.park, &mut self.outs);
        }
        ready_resume(vpe, &mut self.park)
    }
}

// Whether a call in that state has the answer to its ask.
fn ends_obtain(state: &Option<Parked>) -> bool
    ensures { result ≡ ends_obtain_spec state.now }
{
    matches!(
        state,
        Some(Parked::ObtainReady { .. } | Parked::ObtainCancelled)
    )
}

// Whether a call in that state has the answer to its delegate.
fn ends_delegate(state: &Option<Parked>) -> bool
    ensures { result ≡ ends_delegate_spec state.now }
{
    matches!(state, Some(Parked::DelegateReady { .. }))
}
