ghost use Rattle.std.specs.Prelude.{◌≡◌, ◌<◌, ◌+◌, [], ◌∷◌, ◌++◌};
ghost use Rattle.sem_key.specs.declared.limits.TheConstants.{VPES};
ghost use Rattle.sem_msg.specs.declared.message.Message.TheVariants.{ObtainNo};
ghost use Rattle.sem_msg.specs.declared.message.Target.{Target};
ghost use Rattle.sem_msg.specs.declared.state.Ask.TheVariants.{Obtain as ObtainAsk};
ghost use Rattle.sem_msg.specs.Codes.{code_number};
ghost use Rattle.sem_msg.specs.Lookups.{place_owner as place_owner_spec};
ghost use Rattle.sem_msg.specs.Message.{Fits, IsRefusal};
ghost use Rattle.sem_msg.specs.Outboxes.{CanSend, HasSent, box_for, with_box};
ghost use Rattle.sem_vpe.specs.VpeTable.{AreOurs, IsOurs};
ghost use Rattle.sem_machine.specs.Asks.{ask_refused, call_refused};
ghost use Rattle.sem_machine.specs.Sides.{Side};
ghost use Rattle.sem_machine.specs.Stores.{with_parks, with_vpes, with_vpes_parks_outs};

use sem_key::Place;
use sem_msg::{Code, Message, Outboxes, Parked, Setup};
use sem_park::Park;
use sem_vpe::Vpes;

// The message that an asking call is refused.
fn refusal(place: Place, code: Code) -> Message
    requires { IsRefusal (code_number code) }
    ensures message { result ≡ ObtainNo place (code_number code) }
    ensures fits { Fits result }
{
    Message::ObtainNo {
        place,
        code: code.number(),
    }
}

// Tells the kernel of the asker that its asking call is refused.
pub fn send_refusal(setup: &Setup, place: Place, code: Code, outs: &mut Outboxes)
    requires refusal { IsRefusal (code_number code) }
    requires owner { place_owner_spec setup.now place < setup.now.kernels }
    requires sends { CanSend setup.now outs.old }
    ensures sent { let to = place_owner_spec setup.now place in
        outs.new.boxes ≡ with_box outs.old.boxes to (box_for outs.old.boxes to
        ++ ObtainNo place (code_number code) ∷ []) }
    ensures left { HasSent setup.now outs.old outs.new }
{
    outs.send(setup.place_owner(place), refusal(place, code));
}

// The code will answer the asking call of the VPE, and its promised selector is free.
pub fn refuse_call(vpe: u16, code: u8, vpes: &mut Vpes, park: &mut Park)
    requires vpe { vpe < VPES }
    requires ours { IsOurs vpes.old vpe }
    ensures row { (s : Side) →
        with_vpes vpes.new.rows (with_parks park.new s)
        ≡ call_refused code vpe (with_vpes vpes.old.rows (with_parks park.old s)) }
    ensures ours { vpes.new.ours ≡ vpes.old.ours }
{
    if let Some(Parked::ObtainWait { sel, .. }) = park.state(vpe) {
        vpes.release(vpe, sel);
    }
    park.park(vpe, Parked::Ready { code });
}

// The ask is refused: the code will answer the asking call, or, if that is a call of another
// kernel, that kernel is told.
pub fn refuse_ask(
    setup: &Setup,
    kernel: u32,
    place: Place,
    code: Code,
    vpes: &mut Vpes,
    park: &mut Park,
    outs: &mut Outboxes,
)
    requires home { AreOurs setup.now kernel vpes.old }
    requires refusal { IsRefusal (code_number code) }
    requires owner { place_owner_spec setup.now place < setup.now.kernels }
    requires sends { CanSend setup.now outs.old }
    ensures row { (target : Target) (s : Side) →
        with_vpes_parks_outs vpes.new.rows park.new outs.new.boxes s
        ≡ ask_refused setup.now kernel code (ObtainAsk place target)
        (with_vpes_parks_outs vpes.old.rows park.old outs.old.boxes s) }
    ensures ours { vpes.new.ours ≡ vpes.old.ours }
    ensures left { HasSent setup.now outs.old outs.new }
{
    if setup.kernel_of(place.vpe) == kernel {
        refuse_call(place.vpe, code.number(), vpes, park);
    } else {
        send_refusal(setup, place, code, outs);
    }
}
