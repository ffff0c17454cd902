// The acts of a kernel on its stores.
ghost use Rattle.std.specs.Prelude.{◌≡◌, true, None};
ghost use Rattle.std.specs.Option.{option_map_or};
ghost use Rattle.sem_msg.specs.declared.event.Act.TheVariants.{Call as Calls, Fetch, Handle};
ghost use Rattle.sem_msg.specs.declared.event.Act.TheVariants.{Upcall, Resume, Flush, Kill};
ghost use Rattle.sem_msg.specs.declared.entry.Detail.TheVariants.{Carried, Nothing};
ghost use Rattle.sem_machine.specs.Machine.{asked_detail as asked_detail_spec, is_locally_enabled};
ghost use Rattle.sem_kernel.specs.KernelStores.{side_of, AreSound};
ghost use Rattle.sem_kernel.specs.Acting.{StoresCanAct, DoesAct};
ghost use Rattle.sem_kernel.specs.Rooms.{IsReady};

use crate::stores::Stores;
use sem_msg::{Act, Detail, Message, Outcome, Setup};

impl Stores {
    // Does an enabled act that has its room. A fetch gets its message. Returns what the entry tells
    // besides the act.
    pub fn act(
        &mut self,
        setup: &Setup,
        kernel: u32,
        act: Act,
        input: &Option<Message>,
    ) -> (Detail, Outcome)
        requires are { AreSound setup.now kernel self.old }
        requires enabled { is_locally_enabled setup.now kernel (side_of self.old) act ≡ true }
        requires ready { IsReady setup.now act self.old }
        ensures { DoesAct setup.now kernel self.old act input.now self.new result.0 result.1 }
    {
        match act {
            Act::Call { vpe } => self.call_next(setup, kernel, vpe),
            Act::Fetch { from } => self.fetch(setup, kernel, from, input),
            Act::Handle => self.handle_next(setup, kernel),
            Act::Upcall { vpe } => self.upcall_next(setup, kernel, vpe),
            Act::Resume { vpe } => self.resume_parked(setup, kernel, vpe),
            Act::Flush { to } => self.flush(setup, kernel, to),
            Act::Kill { vpe } => self.kill(setup, kernel, vpe),
        }
    }

    fn call_next(&mut self, setup: &Setup, kernel: u32, vpe: u16) -> (Detail, Outcome)
        requires can { StoresCanAct setup.now kernel (Calls vpe) self.old }
        ensures { DoesAct setup.now kernel self.old (Calls vpe) None self.new result.0 result.1 }
    {
        let index = self.vpes.next_call(vpe);
        let Some(call) = self.next_call(setup, kernel, vpe) else {
            unreachable!()
        };
        self.vpes.advance(vpe);
        let outcome = self.call(setup, kernel, vpe, call);
        (Detail::Called { index, call }, outcome)
    }

    // Handles the message in the inbox.
    fn handle_next(&mut self, setup: &Setup, kernel: u32) -> (Detail, Outcome)
        requires can { StoresCanAct setup.now kernel Handle self.old }
        ensures { DoesAct setup.now kernel self.old Handle None self.new result.0 result.1 }
    {
        let inbox = self.inbox;
        self.inbox = None;
        let Some((from, message)) = &inbox else {
            unreachable!()
        };
        self.receive(setup, kernel, *from, message);
        let detail = Detail::Carried {
            peer: *from,
            message: *message,
        };
        (detail, Outcome::nothing())
    }

    fn kill(&mut self, setup: &Setup, kernel: u32, vpe: u16) -> (Detail, Outcome)
        requires can { StoresCanAct setup.now kernel (Kill vpe) self.old }
        ensures { DoesAct setup.now kernel self.old (Kill vpe) None self.new result.0 result.1 }
    {
        self.end(setup, kernel, vpe);
        (Detail::Nothing, Outcome::nothing())
    }

    // Puts the message into the inbox.
    #[tactic(auto, unfolding(sem_machine::specs::Machine::local_step))]
    fn fetch(
        &mut self,
        setup: &Setup,
        kernel: u32,
        from: u32,
        input: &Option<Message>,
    ) -> (Detail, Outcome)
        requires { AreSound setup.now kernel self.old }
        ensures { DoesAct setup.now kernel self.old (Fetch from) input.now self.new result.0
            result.1 }
    {
        self.inbox = match input {
            Some(message) => Some((from, *message)),
            None => None,
        };
        (carried(from, input), Outcome::nothing())
    }

    // Takes out the next message for a kernel.
    #[tactic(auto, unfolding(sem_machine::specs::Machine::local_step))]
    fn flush(&mut self, setup: &Setup, kernel: u32, to: u32) -> (Detail, Outcome)
        requires can { StoresCanAct setup.now kernel (Flush to) self.old }
        ensures { DoesAct setup.now kernel self.old (Flush to) None self.new result.0 result.1 }
    {
        let message = self.outs.pop(to);
        (carried(to, &message), Outcome::nothing())
    }

    // Asks the VPE for its consent.
    #[tactic(auto, unfolding(sem_machine::specs::Machine::local_step))]
    fn upcall_next(&mut self, setup: &Setup, kernel: u32, vpe: u16) -> (Detail, Outcome)
        requires can { StoresCanAct setup.now kernel (Upcall vpe) self.old }
        ensures { DoesAct setup.now kernel self.old (Upcall vpe) None self.new result.0 result.1 }
    {
        let outcome = self.upcall(setup, kernel, vpe);
        (asked_detail(&outcome), outcome)
    }

    // Ends the waiting call of the VPE.
    #[tactic(auto, unfolding(sem_machine::specs::Machine::local_step))]
    fn resume_parked(&mut self, setup: &Setup, kernel: u32, vpe: u16) -> (Detail, Outcome)
        requires can { StoresCanAct setup.now kernel (Resume vpe) self.old }
        ensures { DoesAct setup.now kernel self.old (Resume vpe) None self.new result.0 result.1 }
    {
        let outcome = self.resume(setup, kernel, vpe);
        (Detail::Nothing, outcome)
    }
}

// The moved message, if there was one.
fn carried(peer: u32, message: &Option<Message>) -> Detail
    ensures { result ≡ option_map_or (λ m. Carried peer m) message.now Nothing }
{
    match message {
        Some(message) => Detail::Carried {
            peer,
            message: *message,
        },
        None => Detail::Nothing,
    }
}

// The VPE that asked, if one did, and the answer.
fn asked_detail(outcome: &Outcome) -> Detail
    ensures { result ≡ asked_detail_spec outcome.now }
{
    match outcome.asked {
        Some((asker, answer)) => Detail::Asked { asker, answer },
        None => Detail::Nothing,
    }
}
