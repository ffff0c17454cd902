// The messages of a job that finishes and of a VPE that ends; all of them fit.
ghost use Rattle.std.specs.Prelude.{◌≡◌, ◌<◌, ◌+◌, [], ◌∷◌, ◌++◌, false};
ghost use Rattle.sem_msg.specs.declared.message.Message.TheVariants.{Ack, DelegateNo, ObtainNo};
ghost use Rattle.sem_msg.specs.declared.message.Message.TheVariants.{Orphan, RevokeDone, Unlink};
ghost use Rattle.sem_msg.specs.declared.code.Code.TheVariants.{Dead};
ghost use Rattle.sem_msg.specs.Codes.{code_number};
ghost use Rattle.sem_msg.specs.Lookups.{owner_of as owner_of_spec};
ghost use Rattle.sem_msg.specs.Message.{Fits};
ghost use Rattle.sem_msg.specs.Outboxes.{CanSend, HasBoxes, box_for, with_box};

use sem_key::{Key, Place};
use sem_msg::{Code, Message, Outboxes, Setup};

// The parent loses its link to the key.
pub fn unlinking(parent: Key, key: Key) -> Message
    ensures message { result ≡ Unlink parent key }
    ensures fits { Fits result }
{
    Message::Unlink { parent, key }
}

// A job of another kernel gets a token back.
pub fn token(job: u32) -> Message
    ensures message { result ≡ RevokeDone job }
    ensures fits { Fits result }
{
    Message::RevokeDone { job }
}

// The VPE that was asked for a capability is dead.
pub fn obtain_refusal(place: Place) -> Message
    ensures message { result ≡ ObtainNo place (code_number Dead) }
    ensures fits { Fits result }
{
    Message::ObtainNo {
        place,
        code: Code::Dead.number(),
    }
}

// The VPE that the capability was offered to is dead.
pub fn offer_refusal(parent: Key) -> Message
    ensures message { result ≡ DelegateNo parent (code_number Dead) }
    ensures fits { Fits result }
{
    Message::DelegateNo {
        parent,
        code: Code::Dead.number(),
    }
}

// The parent has a child that no VPE holds.
pub fn orphaned(parent: Key, key: Key) -> Message
    ensures message { result ≡ Orphan parent key }
    ensures fits { Fits result }
{
    Message::Orphan { parent, key }
}

// The accepted delegation does not hold.
pub fn withdrawal(key: Key) -> Message
    ensures message { result ≡ Ack key false }
    ensures fits { Fits result }
{
    Message::Ack { key, yes: false }
}

// Sends the message to a kernel of the setup.
pub fn tell(setup: &Setup, to: u32, message: Message, outs: &mut Outboxes)
    requires fits { Fits message }
    requires to { to < setup.now.kernels }
    requires sends { CanSend setup.now outs.old }
    ensures sent { outs.new.boxes
        ≡ with_box outs.old.boxes to (box_for outs.old.boxes to ++ message ∷ []) }
    ensures boxes { HasBoxes setup.now outs.new }
    ensures spare { outs.new.spare + 1 ≡ outs.old.spare }
{
    // Shows the proof how many kernels there are.
    let _ = &setup.kernels;
    outs.send(to, message);
}

// Sends the message to the kernel that owns the key.
pub fn tell_owner(setup: &Setup, key: Key, message: Message, outs: &mut Outboxes)
    requires fits { Fits message }
    requires owner { owner_of_spec setup.now key < setup.now.kernels }
    requires sends { CanSend setup.now outs.old }
    ensures sent { outs.new.boxes
        ≡ with_box outs.old.boxes (owner_of_spec setup.now key)
        (box_for outs.old.boxes (owner_of_spec setup.now key) ++ message ∷ []) }
    ensures boxes { HasBoxes setup.now outs.new }
    ensures spare { outs.new.spare + 1 ≡ outs.old.spare }
{
    tell(setup, setup.owner_of(key), message, outs);
}
