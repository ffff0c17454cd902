// Any call of a VPE, and any message.
ghost use Rattle.std.specs.Prelude.{◌≡◌, ◌+◌, ◌≤◌, true, None, length};
ghost use Rattle.sem_msg.specs.declared.code.Code.TheVariants.{Ok as OkCode};
ghost use Rattle.sem_msg.specs.Calls.{IsValidCall};
ghost use Rattle.sem_msg.specs.Versions.{most_vpes};
ghost use Rattle.sem_machine.specs.Sides.{parked, row};
ghost use Rattle.sem_machine.specs.Steps.{answer};
ghost use Rattle.sem_machine.specs.Calls.{call_row};
ghost use Rattle.sem_machine.specs.Ends.{ended};
ghost use Rattle.sem_machine.specs.Handles.{handled};
ghost use Rattle.sem_machine.specs.Sound.{IsSoundMessage, ids_owed, ids_paid};
ghost use Rattle.sem_kernel.specs.KernelStores.{side_of, AreStoresOf, AreSound};
ghost use Rattle.sem_kernel.specs.Handing.{CanCall, CanHandle, HasCalled, HasHandled};
ghost use Rattle.sem_kernel.specs.Rooms.{HasRoom, HasRoomToRevoke, called_parent, is_request};
ghost use Rattle.sem_kernel.specs.Rooms.{is_revoking};

use crate::stores::Stores;
use sem_delegate::{ack, delegate_call, delegate_prepared, delegate_refused, delegate_request};
use sem_msg::{Call, Code, Message, Outcome, Setup};
use sem_obtain::{
    obtain_answer, obtain_call, obtain_refused, obtain_request, offer_call, open_call, orphan,
    unlink,
};
use sem_own::{
    Gate, Part, bind_call, credit_call, derive_call, gate_call, read_call, send_call, write_call,
};

impl Stores {
    // The VPE makes the call, which was counted and pays for a job.
    #[tactic(auto, unfolding(sem_machine::specs::Calls::call_row))]
    pub fn call(&mut self, setup: &Setup, kernel: u32, vpe: u16, call: Call) -> Outcome
        requires can { CanCall setup.now kernel vpe self.old }
        requires idle { parked (side_of self.old) vpe ≡ None }
        requires pays { ids_owed (side_of self.old) + 1 ≤ ids_paid (side_of self.old) }
        requires valid { IsValidCall (most_vpes setup.now.version) call }
        requires room { HasRoom (called_parent (side_of self.old) vpe call) self.old }
        requires revoke { is_revoking call ≡ true →
            HasRoomToRevoke (length (row (side_of self.old) vpe).asks) self.old }
        ensures { HasCalled setup.now kernel self.new result
            (call_row setup.now kernel (side_of self.old) vpe call) }
    {
        lend!(self => caps, vpes, dtus, park, outs);
        match call {
            Call::Derive {
                src,
                dst,
                off,
                len,
                rights,
            } => derive_call(setup, vpe, src, dst, &Part { off, len, rights }, caps, vpes),
            Call::Gate {
                src,
                dst,
                label,
                credits,
            } => gate_call(setup, vpe, src, dst, Gate { label, credits }, caps, vpes),
            Call::Obtain { dst, vpe: of, src } => obtain_call(
                setup, kernel, vpe, dst, of, src, vpes, park, outs,
            ),
            Call::Delegate { src, vpe: to, dst } => delegate_call(
                setup, kernel, vpe, src, to, dst, caps, vpes, park, outs,
            ),
            Call::OpenSession { dst, name } => open_call(
                setup, kernel, vpe, dst, name, vpes, park, outs,
            ),
            Call::AskOffer {
                dst,
                session,
                index,
            } => offer_call(
                setup, kernel, vpe, dst, session, index, caps, vpes, park, outs,
            ),
            Call::Revoke { src } => self.revoke(setup, kernel, vpe, src),
            Call::Clear { src } => self.clear(setup, kernel, vpe, src),
            Call::Exit => self.exit(setup, kernel, vpe),
            Call::Bind { ep, src } => bind_call(vpe, ep, src, caps, vpes, dtus),
            Call::Read { ep, off, len } => read_call(vpe, ep, off, len, dtus),
            Call::Write { ep, off, len } => write_call(vpe, ep, off, len, dtus),
            Call::Send { ep, len } => send_call(vpe, ep, len, dtus),
            Call::Credit { ep } => credit_call(vpe, ep, dtus),
        }
    }

    fn exit(&mut self, setup: &Setup, kernel: u32, vpe: u16) -> Outcome
        requires can { CanCall setup.now kernel vpe self.old }
        requires room { HasRoomToRevoke (length (row (side_of self.old) vpe).asks) self.old }
        ensures { HasCalled setup.now kernel self.new result
            (answer OkCode (ended setup.now kernel vpe (side_of self.old))) }
    {
        self.end(setup, kernel, vpe);
        Outcome::answered(Code::Ok)
    }

    // Handles the message of kernel `from`, unless it is a stray.
    pub fn receive(&mut self, setup: &Setup, kernel: u32, from: u32, message: &Message)
        requires are { AreSound setup.now kernel self.old }
        requires sound { IsSoundMessage setup.now kernel from message.now }
        requires room { HasRoom None self.old }
        requires revoke { is_request message.now ≡ true → HasRoomToRevoke 0 self.old }
        ensures row { side_of self.new
            ≡ handled setup.now kernel (side_of self.old) from message.now }
        ensures stores { AreStoresOf setup.now kernel self.new }
    {
        if self.is_stray(setup, kernel, message) {
            return;
        }
        self.handle(setup, kernel, from, message);
    }

    // Handles the message of kernel `from`, which is no stray.
    fn handle(&mut self, setup: &Setup, kernel: u32, from: u32, message: &Message)
        requires can { CanHandle setup.now kernel self.old message.now }
        requires sound { IsSoundMessage setup.now kernel from message.now }
        requires room { HasRoom None self.old }
        requires revoke { is_request message.now ≡ true → HasRoomToRevoke 0 self.old }
        ensures { HasHandled setup.now kernel from self.old self.new message.now }
    {
        lend!(self => caps, vpes, park, pendings, outs);
        match message {
            Message::ObtainReq { place, target } => {
                obtain_request(setup, kernel, *place, *target, vpes, outs);
            }
            Message::ObtainOk {
                parent,
                key,
                object,
            } => obtain_answer(setup, kernel, *parent, *key, *object, vpes, park, outs),
            Message::ObtainNo { place, code } => {
                obtain_refused(setup, kernel, *place, *code, vpes, park);
            }
            Message::DelegateReq {
                parent,
                object,
                vpe,
                sel,
            } => delegate_request(setup, kernel, *parent, *object, *vpe, *sel, vpes, outs),
            Message::DelegatePrepared { parent, key } => {
                delegate_prepared(setup, kernel, *parent, *key, vpes, park, outs);
            }
            Message::DelegateNo { parent, code } => {
                delegate_refused(setup, kernel, *parent, *code, vpes, park);
            }
            Message::Ack { key, yes } => {
                ack(setup, kernel, *key, *yes, caps, vpes, pendings, outs);
            }
            Message::Orphan { parent, key } => orphan(*parent, *key, caps),
            Message::RevokeReq { key, job } => self.revoke_requested(
                setup, kernel, from, *key, *job,
            ),
            Message::RevokeDone { job } => self.token_returned(setup, kernel, from, *job),
            Message::Unlink { parent, key } => unlink(*parent, *key, caps),
        }
    }
}
