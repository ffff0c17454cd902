// The messages of a delegation; all of them fit.
ghost use Rattle.std.specs.Prelude.{◌≡◌, ◌<◌, ◌+◌, [], ◌∷◌, ◌++◌};
ghost use Rattle.sem_key.specs.declared.limits.TheConstants.{VPES};
ghost use Rattle.sem_key.specs.ObjectRanges.{IsValidObject, object_kind};
ghost use Rattle.sem_msg.specs.declared.message.Message.TheVariants.{Ack, DelegateNo};
ghost use Rattle.sem_msg.specs.declared.message.Message.TheVariants.{DelegatePrepared, DelegateReq};
ghost use Rattle.sem_msg.specs.declared.message.Message.TheVariants.{Orphan};
ghost use Rattle.sem_msg.specs.Codes.{code_number};
ghost use Rattle.sem_msg.specs.Lookups.{owner_of as owner_of_spec};
ghost use Rattle.sem_msg.specs.Message.{Fits, IsDelegable, IsRefusal};
ghost use Rattle.sem_msg.specs.Outboxes.{CanSend, HasSent, box_for, with_box};

use sem_key::{Key, Object};
use sem_msg::{Code, Message, Outboxes, Setup};

// The capability is offered to the VPE.
pub fn request(parent: Key, object: Object, vpe: u16, sel: u8) -> Message
    requires object { IsValidObject object }
    requires kind { parent.kind ≡ object_kind object }
    requires delegable { IsDelegable parent.kind }
    requires vpe { vpe < VPES }
    ensures message { result ≡ DelegateReq parent object vpe sel }
    ensures fits { Fits result }
{
    Message::DelegateReq {
        parent,
        object,
        vpe,
        sel,
    }
}

// The offer is accepted.
pub fn prepared(parent: Key, key: Key) -> Message
    ensures message { result ≡ DelegatePrepared parent key }
    ensures fits { Fits result }
{
    Message::DelegatePrepared { parent, key }
}

// The offer is refused.
pub fn refusal(parent: Key, code: Code) -> Message
    requires { IsRefusal (code_number code) }
    ensures message { result ≡ DelegateNo parent (code_number code) }
    ensures fits { Fits result }
{
    Message::DelegateNo {
        parent,
        code: code.number(),
    }
}

// Whether the accepted delegation holds.
pub fn acknowledgement(key: Key, yes: bool) -> Message
    ensures message { result ≡ Ack key yes }
    ensures fits { Fits result }
{
    Message::Ack { key, yes }
}

// The parent has a child that no VPE holds.
pub fn orphaned(parent: Key, key: Key) -> Message
    ensures message { result ≡ Orphan parent key }
    ensures fits { Fits result }
{
    Message::Orphan { parent, key }
}

// Sends the message to the kernel that owns the key.
pub fn tell_owner(setup: &Setup, key: Key, message: Message, outs: &mut Outboxes)
    requires fits { Fits message }
    requires owner { owner_of_spec setup.now key < setup.now.kernels }
    requires sends { CanSend setup.now outs.old }
    ensures sent { outs.new.boxes
        ≡ with_box outs.old.boxes (owner_of_spec setup.now key)
        (box_for outs.old.boxes (owner_of_spec setup.now key) ++ message ∷ []) }
    ensures left { HasSent setup.now outs.old outs.new }
{
    outs.send(setup.owner_of(key), message);
}
