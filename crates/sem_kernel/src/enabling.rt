// Which acts of a kernel are enabled, as far as its stores tell.
ghost use Rattle.std.specs.Prelude.{◌≡◌, is_some, slice_get, length};
ghost use Rattle.sem_msg.specs.Lookups.{kernel_of as kernel_of_spec, calls_of};
ghost use Rattle.sem_machine.specs.Machine.{is_locally_enabled};
ghost use Rattle.sem_machine.specs.Machine.{next_call as next_call_spec};
ghost use Rattle.sem_machine.specs.Resumes.{can_resume as can_resume_spec};
ghost use Rattle.sem_machine.specs.Sides.{row};
ghost use Rattle.sem_kernel.specs.KernelStores.{side_of, AreStoresOf, AreSound};
ghost use Rattle.sem_kernel.specs.Listing.{AreVpeActs};

use crate::own::OwnVpe;
use crate::stores::Stores;
use sem_msg::{Act, Call, Parked, Setup};

// Which acts of a VPE are enabled.
#[derive(Clone, Copy)]
pub struct VpeActs {
    pub call: bool,
    pub resume: bool,
    pub upcall: bool,
}

impl Stores {
    // Whether the act is enabled, as far as the stores tell.
    #[tactic(auto, unfolding(sem_machine::specs::Machine::is_locally_enabled))]
    pub fn is_enabled(&self, setup: &Setup, kernel: u32, act: Act) -> bool
        requires { AreSound setup.now kernel self.now }
        ensures { result ≡ is_locally_enabled setup.now kernel (side_of self.now) act }
    {
        match act {
            Act::Call { vpe } => {
                setup.kernel_of(vpe) == kernel
                    && self.vpes.alive(vpe)
                    && self.park.state(vpe).is_none()
                    && self.next_call(setup, kernel, vpe).is_some()
            }
            Act::Resume { vpe } => {
                setup.kernel_of(vpe) == kernel && can_resume(&self.park.state(vpe))
            }
            Act::Upcall { vpe } => {
                setup.kernel_of(vpe) == kernel
                    && self.vpes.alive(vpe)
                    && self.vpes.front_ask(vpe).is_some()
            }
            Act::Handle => self.inbox.is_some(),
            Act::Fetch { from } => { setup.is_other_kernel(kernel, from) && self.inbox.is_none() }
            Act::Flush { to } => {
                setup.is_other_kernel(kernel, to) && self.outs.front(to).is_some()
            }
            Act::Kill { vpe } => {
                setup.kernel_of(vpe) == kernel
                    && self.vpes.alive(vpe)
                    && setup.kill_number(vpe).is_some()
            }
        }
    }

    // Which acts of the VPE, one of this kernel, are enabled.
    #[tactic(auto, unfolding(sem_machine::specs::Machine::is_locally_enabled))]
    pub fn vpe_acts(&self, setup: &Setup, kernel: u32, own: OwnVpe) -> VpeActs
        requires are { AreSound setup.now kernel self.now }
        requires here { kernel_of_spec setup.now own.vpe ≡ kernel }
        requires calls { length (calls_of setup.now own.vpe) ≡ own.calls }
        ensures { AreVpeActs setup.now kernel (side_of self.now) own.vpe result }
    {
        let vpe = own.vpe;
        let alive = self.vpes.alive(vpe);
        let state = self.park.state(vpe);
        VpeActs {
            call: alive && state.is_none() && self.has_next_call(setup, kernel, own),
            resume: can_resume(&state),
            upcall: alive && self.is_asked(setup, kernel, vpe),
        }
    }

    // Whether a VPE, one of this kernel, makes one more call.
    fn has_next_call(&self, setup: &Setup, kernel: u32, own: OwnVpe) -> bool
        requires stores { AreStoresOf setup.now kernel self.now }
        requires here { kernel_of_spec setup.now own.vpe ≡ kernel }
        requires calls { length (calls_of setup.now own.vpe) ≡ own.calls }
        ensures { result ≡ is_some (next_call_spec setup.now (side_of self.now) own.vpe) }
    {
        (self.vpes.next_call(own.vpe) as usize) < own.calls
    }

    // Whether an ask waits for the VPE, one of this kernel.
    fn is_asked(&self, setup: &Setup, kernel: u32, vpe: u16) -> bool
        requires stores { AreStoresOf setup.now kernel self.now }
        requires here { kernel_of_spec setup.now vpe ≡ kernel }
        ensures { result ≡ is_some (slice_get (row (side_of self.now) vpe).asks 0) }
    {
        self.vpes.asks(vpe) > 0
    }

    // The call that the VPE, one of this kernel, makes next.
    pub fn next_call(&self, setup: &Setup, kernel: u32, vpe: u16) -> Option<Call>
        requires stores { AreStoresOf setup.now kernel self.now }
        requires here { kernel_of_spec setup.now vpe ≡ kernel }
        ensures { result ≡ next_call_spec setup.now (side_of self.now) vpe }
    {
        let decl = setup.decl(vpe)?;
        decl.calls.get(self.vpes.next_call(vpe) as usize).copied()
    }
}

// Whether a call in that state can go on.
fn can_resume(state: &Option<Parked>) -> bool
    ensures { result ≡ can_resume_spec state.now }
{
    matches!(
        state,
        Some(
            Parked::ObtainReady { .. }
                | Parked::ObtainCancelled
                | Parked::DelegateReady { .. }
                | Parked::Ready { .. }
        )
    )
}
