ghost use Rattle.std.specs.Prelude.{◌≡◌, ◌≢◌, ℕ, ◌<◌};
ghost use Rattle.sem_msg.specs.declared.message.Message.TheVariants.{ObtainNo, ObtainOk, ObtainReq};
ghost use Rattle.sem_msg.specs.declared.message.Message.TheVariants.{Orphan};
ghost use Rattle.sem_msg.specs.Lookups.{kernel_of as kernel_of_spec, owner_of as owner_of_spec};
ghost use Rattle.sem_msg.specs.Lookups.{place_owner as place_owner_spec};
ghost use Rattle.sem_msg.specs.Message.{Fits};
ghost use Rattle.sem_msg.specs.Outboxes.{HasSent};
ghost use Rattle.sem_vpe.specs.Telling.{CanTell};
ghost use Rattle.sem_vpe.specs.VpeTable.{AreOurs};
ghost use Rattle.sem_machine.specs.Asks.{target_vpe as target_vpe_spec};
ghost use Rattle.sem_machine.specs.Sides.{Side};
ghost use Rattle.sem_machine.specs.Handles.{handle_row};
ghost use Rattle.sem_machine.specs.Stores.{with_outs, with_parks, with_vpes, with_vpes_parks_outs};

use crate::ends::{refuse_call, send_refusal};
use sem_key::{Key, Object, Place};
use sem_msg::{Ask, Code, Message, Outboxes, Parked, Setup, Target};
use sem_park::Park;
use sem_vpe::Vpes;

// The message that the parent has a child that no VPE holds.
fn orphaned(parent: Key, key: Key) -> Message
    ensures message { result ≡ Orphan parent key }
    ensures fits { Fits result }
{
    Message::Orphan { parent, key }
}

/// An answer to an asking call: the call is ready to install the capability, or, if its VPE is
/// dead, the kernel of the parent is told.
#[tactic(auto, unfolding(sem_machine::specs::Handles::handle_row))]
pub fn obtain_answer(
    setup: &Setup,
    kernel: u32,
    parent: Key,
    key: Key,
    object: Object,
    vpes: &Vpes,
    park: &mut Park,
    outs: &mut Outboxes,
)
    requires can { CanTell setup.now kernel key.vpe vpes.now outs.old }
    requires owner { owner_of_spec setup.now parent < setup.now.kernels }
    ensures row { (from : ℕ) (s : Side) →
        with_vpes_parks_outs vpes.now.rows park.new outs.new.boxes s
        ≡ handle_row setup.now kernel (with_vpes_parks_outs vpes.now.rows park.old outs.old.boxes s)
        from (ObtainOk parent key object) }
    ensures left { HasSent setup.now outs.old outs.new }
{
    if !vpes.alive(key.vpe) {
        outs.send(setup.owner_of(parent), orphaned(parent, key));
        return;
    }
    if let Some(Parked::ObtainWait { sel, .. }) = park.state(key.vpe) {
        let state = Parked::ObtainReady {
            key,
            parent,
            object,
            sel,
        };
        park.park(key.vpe, state);
    }
}

/// An asking call is refused: its promised selector is free, and the code will answer it.
#[tactic(auto, unfolding(sem_machine::specs::Handles::handle_row))]
pub fn obtain_refused(
    setup: &Setup,
    kernel: u32,
    place: Place,
    code: u8,
    vpes: &mut Vpes,
    park: &mut Park,
)
    requires home { AreOurs setup.now kernel vpes.old }
    requires vpe { kernel_of_spec setup.now place.vpe ≡ kernel }
    ensures row { (from : ℕ) (s : Side) →
        with_vpes vpes.new.rows (with_parks park.new s)
        ≡ handle_row setup.now kernel (with_vpes vpes.old.rows (with_parks park.old s)) from
        (ObtainNo place code) }
    ensures ours { vpes.new.ours ≡ vpes.old.ours }
{
    if vpes.alive(place.vpe) {
        refuse_call(place.vpe, code, vpes, park);
    }
}

/// A request from another kernel: the VPE of the target gets the ask, or, if it is dead, the kernel
/// of the asker is told.
#[tactic(auto, unfolding(sem_machine::specs::Handles::handle_row))]
pub fn obtain_request(
    setup: &Setup,
    kernel: u32,
    place: Place,
    target: Target,
    vpes: &mut Vpes,
    outs: &mut Outboxes,
)
    requires can { CanTell setup.now kernel (target_vpe_spec target) vpes.old outs.old }
    requires other { kernel_of_spec setup.now place.vpe ≢ kernel }
    requires owner { place_owner_spec setup.now place < setup.now.kernels }
    ensures row { (from : ℕ) (s : Side) →
        with_vpes vpes.new.rows (with_outs outs.new.boxes s)
        ≡ handle_row setup.now kernel (with_vpes vpes.old.rows (with_outs outs.old.boxes s)) from
        (ObtainReq place target) }
    ensures ours { vpes.new.ours ≡ vpes.old.ours }
    ensures left { HasSent setup.now outs.old outs.new }
{
    let vpe = target.vpe();
    if vpes.alive(vpe) {
        vpes.ask(vpe, Ask::Obtain { place, target });
    } else {
        send_refusal(setup, place, Code::Dead, outs);
    }
}
