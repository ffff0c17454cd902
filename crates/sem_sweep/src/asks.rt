ghost use Rattle.std.specs.Prelude.{◌≡◌, ℕ, ◌<◌, ◌≤◌, ◌+◌, All, length};
ghost use Rattle.sem_key.specs.declared.limits.TheConstants.{VPES};
ghost use Rattle.sem_key.specs.Lists.{in_turn};
ghost use Rattle.sem_key.specs.declared.object.Object.{Object as ObjectOf};
ghost use Rattle.sem_msg.specs.declared.code.Code.TheVariants.{Dead};
ghost use Rattle.sem_msg.specs.declared.message.Target.{Target};
ghost use Rattle.sem_msg.specs.declared.state.Ask.TheVariants.{Obtain as ObtainAsk};
ghost use Rattle.sem_msg.specs.declared.state.Ask.TheVariants.{Delegate as DelegateAsk};
ghost use Rattle.sem_msg.specs.Codes.{code_number};
ghost use Rattle.sem_msg.specs.Lookups.{owner_of as owner_of_spec};
ghost use Rattle.sem_msg.specs.Lookups.{place_owner as place_owner_spec};
ghost use Rattle.sem_msg.specs.Outboxes.{CanSend, HasBoxes, HasSent};
ghost use Rattle.sem_msg.specs.ParkedStates.{parked_as, state_of};
ghost use Rattle.sem_msg.specs.declared.state.Parked.TheVariants.{Ready};
ghost use Rattle.sem_msg.specs.VpeRows.{row};
ghost use Rattle.sem_vpe.specs.VpeTable.{AreOurs, IsOurs};
ghost use Rattle.sem_machine.specs.Ends.{ask_ended};
ghost use Rattle.sem_machine.specs.Sides.{Side};
ghost use Rattle.sem_machine.specs.Stores.{with_outs, with_parks, with_vpes, with_vpes_parks_outs};
ghost use Rattle.sem_sweep.specs.Sweeping.{CanOwe, HasAsker, obtain_ended, unasked};

use crate::messages::{obtain_refusal, offer_refusal, tell, tell_owner};
use sem_key::{Key, Place};
use sem_msg::{Ask, Code, Outboxes, Parked, Setup};
use sem_park::Park;
use sem_vpe::Vpes;

// Takes out and answers the asks of the dead VPE, oldest first.
pub fn answer_asks(
    setup: &Setup,
    kernel: u32,
    vpe: u16,
    vpes: &mut Vpes,
    park: &mut Park,
    outs: &mut Outboxes,
)
    requires home { AreOurs setup.now kernel vpes.old }
    requires ours { IsOurs vpes.old vpe }
    requires asks { All (HasAsker setup.now) (row vpes.old.rows vpe).asks }
    requires owes { CanOwe setup.now (state_of park.old vpe) }
    requires boxes { HasBoxes setup.now outs.old }
    requires spare { length (row vpes.old.rows vpe).asks ≤ outs.old.spare }
    ensures row { (s : Side) →
        with_vpes_parks_outs vpes.new.rows park.new outs.new.boxes s
        ≡ in_turn (ask_ended setup.now kernel) (row vpes.old.rows vpe).asks
        (unasked vpe (with_vpes_parks_outs vpes.old.rows park.old outs.old.boxes s)) }
    ensures owes { CanOwe setup.now (state_of park.new vpe) }
    ensures ours { vpes.new.ours ≡ vpes.old.ours }
    ensures boxes { HasBoxes setup.now outs.new }
    ensures spare { outs.old.spare ≤ outs.new.spare + length (row vpes.old.rows vpe).asks }
{
    while let Some(ask) = vpes.next_ask(vpe) {
        end_ask(setup, kernel, &ask, vpes, park, outs);
    }
}

// Answers an ask of the dead VPE, or drops it if its asker is of this kernel and does not wait for
// it.
fn end_ask(
    setup: &Setup,
    kernel: u32,
    ask: &Ask,
    vpes: &mut Vpes,
    park: &mut Park,
    outs: &mut Outboxes,
)
    requires home { AreOurs setup.now kernel vpes.old }
    requires asker { HasAsker setup.now ask.now }
    requires sends { CanSend setup.now outs.old }
    ensures row { (s : Side) →
        with_vpes_parks_outs vpes.new.rows park.new outs.new.boxes s
        ≡ ask_ended setup.now kernel ask.now
        (with_vpes_parks_outs vpes.old.rows park.old outs.old.boxes s) }
    ensures ours { vpes.new.ours ≡ vpes.old.ours }
    ensures left { HasSent setup.now outs.old outs.new }
{
    match ask {
        Ask::Obtain { place, .. } => end_obtain(setup, kernel, *place, vpes, park, outs),
        Ask::Delegate { parent, .. } => end_offer(setup, kernel, *parent, park, outs),
    }
}

// Answers the ask of an obtaining call: tells its kernel, or refuses the call here, if it waits.
fn end_obtain(
    setup: &Setup,
    kernel: u32,
    place: Place,
    vpes: &mut Vpes,
    park: &mut Park,
    outs: &mut Outboxes,
)
    requires home { AreOurs setup.now kernel vpes.old }
    requires owner { place_owner_spec setup.now place < setup.now.kernels }
    requires sends { CanSend setup.now outs.old }
    ensures row { (target : Target) (s : Side) →
        with_vpes_parks_outs vpes.new.rows park.new outs.new.boxes s
        ≡ ask_ended setup.now kernel (ObtainAsk place target)
        (with_vpes_parks_outs vpes.old.rows park.old outs.old.boxes s) }
    ensures ours { vpes.new.ours ≡ vpes.old.ours }
    ensures left { HasSent setup.now outs.old outs.new }
{
    if setup.kernel_of(place.vpe) == kernel {
        end_obtain_here(place, vpes, park);
    } else {
        tell(setup, setup.place_owner(place), obtain_refusal(place), outs);
    }
}

// The obtaining call of that place, if it waits, will end with the code of a dead VPE, and its
// promised selector is free.
fn end_obtain_here(place: Place, vpes: &mut Vpes, park: &mut Park)
    requires ours { IsOurs vpes.old place.vpe }
    ensures row { (s : Side) →
        with_vpes vpes.new.rows (with_parks park.new s)
        ≡ obtain_ended place (with_vpes vpes.old.rows (with_parks park.old s)) }
    ensures ours { vpes.new.ours ≡ vpes.old.ours }
{
    let Some(Parked::ObtainWait { number, sel }) = park.state(place.vpe) else {
        return;
    };
    if number == place.number {
        let vpe = place.vpe;
        vpes.release(vpe, sel);
        refuse(vpe, park);
    }
}

// The waiting call of the VPE will end with the code of a dead VPE.
fn refuse(vpe: u16, park: &mut Park)
    requires { vpe < VPES }
    ensures { park.new ≡ parked_as park.old vpe (Ready (code_number Dead)) }
{
    park.park(
        vpe,
        Parked::Ready {
            code: Code::Dead.number(),
        },
    );
}

// Answers the ask of a delegate: tells its kernel, or refuses the call here, if it waits.
fn end_offer(setup: &Setup, kernel: u32, parent: Key, park: &mut Park, outs: &mut Outboxes)
    requires owner { owner_of_spec setup.now parent < setup.now.kernels }
    requires sends { CanSend setup.now outs.old }
    ensures row { (object : ObjectOf) (sel : ℕ) (s : Side) →
        with_parks park.new (with_outs outs.new.boxes s)
        ≡ ask_ended setup.now kernel (DelegateAsk parent object sel)
        (with_parks park.old (with_outs outs.old.boxes s)) }
    ensures left { HasSent setup.now outs.old outs.new }
{
    if setup.kernel_of(parent.vpe) != kernel {
        tell_owner(setup, parent, offer_refusal(parent), outs);
    } else if park.is_delegate_wait(parent) {
        refuse(parent.vpe, park);
    }
}
