ghost use Rattle.std.specs.Prelude.{◌≡◌, ◌<◌, ◌≤◌, ◌+◌, None, IfSome};
ghost use Rattle.sem_key.specs.declared.key.Kind.{Kind};
ghost use Rattle.sem_key.specs.CapList.{cap_of};
ghost use Rattle.sem_key.specs.Capability.{capability_of};
ghost use Rattle.sem_key.specs.ObjectRanges.{object_kind, IsValidObject};
ghost use Rattle.sem_key.specs.PlaceName.{keyed as keyed_spec};
ghost use Rattle.sem_msg.specs.declared.message.Message.TheVariants.{ObtainOk};
ghost use Rattle.sem_msg.specs.declared.state.Ask.TheVariants.{Obtain as ObtainAsk};
ghost use Rattle.sem_msg.specs.Lookups.{kernel_of as kernel_of_spec, owner_of as owner_of_spec};
ghost use Rattle.sem_msg.specs.Lookups.{place_owner as place_owner_spec};
ghost use Rattle.sem_msg.specs.Message.{Fits, IsValidTarget};
ghost use Rattle.sem_msg.specs.Outboxes.{CanSend, HasSent};
ghost use Rattle.sem_msg.specs.ParkedStates.{state_of};
ghost use Rattle.sem_vpe.specs.Telling.{CanTell};
ghost use Rattle.sem_vpe.specs.VpeTable.{AreOurs, IsOurs};
ghost use Rattle.sem_machine.specs.Sides.{Side, no_side};
ghost use Rattle.sem_machine.specs.Steps.{step_of};
ghost use Rattle.sem_machine.specs.Upcalls.{ask_decided, given as given_spec, given_here};
ghost use Rattle.sem_machine.specs.Upcalls.{obtain_consent, source as source_spec};
ghost use Rattle.sem_machine.specs.Stores.{installing, owning, with_caps_vpes_parks_outs};
ghost use Rattle.sem_obtain.specs.Asking.{answer_to, child_sent, IsGivable, IsUnusedNumber};
ghost use Rattle.sem_obtain.specs.Asking.{is_place_unawaited as is_unawaited_spec};

use crate::ends::refuse_ask;
use crate::lookups::source;
use crate::refusals::source_refusal;
use crate::resumes::install;
use sem_caps::Caps;
use sem_key::{Cap, Key, Object, Place, keyed};
use sem_msg::{Code, Consent, Message, Outboxes, Outcome, Parked, Setup, Target};
use sem_park::Park;
use sem_vpe::Vpes;

// What a VPE grants: a child of the capability `parent`, with that key and object.
#[derive(Clone, Copy, Debug)]
struct Grant {
    parent: Key,
    key: Key,
    object: Object,
}

/// The VPE is asked for the capability at one of its selectors, for a session with its service, or
/// for what its service offers. It may deny, or have nothing to give. Its child is installed, or,
/// if the asker is of another kernel, sent there. If the asker is of this kernel and no longer
/// waits, nothing is done.
pub fn obtain_upcall(
    setup: &Setup,
    kernel: u32,
    vpe: u16,
    place: Place,
    target: Target,
    caps: &mut Caps,
    vpes: &mut Vpes,
    park: &mut Park,
    outs: &mut Outboxes,
) -> Outcome
    requires can { CanTell setup.now kernel vpe vpes.old outs.old }
    requires owner { place_owner_spec setup.now place < setup.now.kernels }
    requires target { IsValidTarget target }
    requires source { IfSome
        (source_spec setup.now (owning caps.old.caps vpes.old.rows no_side) vpe target)
        (IsGivable caps.old) }
    requires free { IsUnusedNumber caps.old park.old place }
    requires spare { 0 < caps.old.spare }
    ensures row { (s : Side) →
        step_of result
        (with_caps_vpes_parks_outs caps.new.caps vpes.new.rows park.new outs.new.boxes s)
        ≡ ask_decided setup.now kernel vpe (ObtainAsk place target)
        (with_caps_vpes_parks_outs caps.old.caps vpes.old.rows park.old outs.old.boxes s) }
    ensures ours { vpes.new.ours ≡ vpes.old.ours }
    ensures spare { caps.old.spare ≤ caps.new.spare + 1 }
    ensures left { HasSent setup.now outs.old outs.new }
{
    match answer(setup, kernel, vpe, place, park) {
        Consent::Dropped => Outcome::asked(place.vpe, Consent::Dropped, None),
        Consent::No => {
            refuse_ask(setup, kernel, place, Code::Refused, vpes, park, outs);
            Outcome::asked(place.vpe, Consent::No, None)
        }
        Consent::Yes => {
            if let Some(code) = source_refusal(setup, vpe, &target, caps, vpes) {
                refuse_ask(setup, kernel, place, code, vpes, park, outs);
                return Outcome::asked(place.vpe, Consent::Yes, None);
            }
            let Some(cap) = source(setup, vpe, &target, caps, vpes) else {
                unreachable!()
            };
            let grant = granting(cap, place, &target);
            let granted = (grant.parent, grant.key);
            give(setup, kernel, grant, caps, vpes, park, outs);
            Outcome::asked(place.vpe, Consent::Yes, Some(granted))
        }
    }
}

fn answer(setup: &Setup, kernel: u32, vpe: u16, place: Place, park: &Park) -> Consent
    ensures { result ≡ answer_to setup.now kernel vpe park.now place }
{
    if is_unawaited(setup, kernel, place, park) {
        Consent::Dropped
    } else if setup.denies(vpe, place.vpe) {
        Consent::No
    } else {
        Consent::Yes
    }
}

// Whether the asker is of this kernel and does not wait for the answer.
fn is_unawaited(setup: &Setup, kernel: u32, place: Place, park: &Park) -> bool
    ensures { result ≡ is_unawaited_spec setup.now kernel park.now place }
{
    setup.kernel_of(place.vpe) == kernel && !park.is_obtain_wait(place.vpe, place.number)
}

// What is granted to the asker at that place, from the capability.
fn granting(cap: &Cap, place: Place, target: &Target) -> Grant
    ensures parent { result.parent ≡ cap.now.key }
    ensures key { result.key ≡ keyed_spec place (object_kind result.object) }
    ensures object { result.object ≡ given_spec target.now place.vpe (capability_of cap.now) }
{
    let object = given(target, place.vpe, cap);
    Grant {
        parent: cap.key,
        key: keyed(place, object.kind()),
        object,
    }
}

// The object of the child: that of the source, or a session of the asker with the service.
fn given(target: &Target, asker: u16, cap: &Cap) -> Object
    ensures { result ≡ given_spec target.now asker (capability_of cap.now) }
{
    match target {
        Target::Serv { service } => Object::Sess {
            service: *service,
            ident: asker,
        },
        Target::Sel { .. } | Target::Offer { .. } => cap.object,
    }
}

// The parent gets the child, which goes to the VPE of its key.
fn give(
    setup: &Setup,
    kernel: u32,
    grant: Grant,
    caps: &mut Caps,
    vpes: &mut Vpes,
    park: &mut Park,
    outs: &mut Outboxes,
)
    requires home { AreOurs setup.now kernel vpes.old }
    requires owner { owner_of_spec setup.now grant.key < setup.now.kernels }
    requires object { IsValidObject grant.object }
    requires kind { grant.key.kind ≡ object_kind grant.object }
    requires child_room { caps.old.child_room ≡ Some grant.parent }
    requires free { kernel_of_spec setup.now grant.key.vpe ≡ kernel →
        cap_of caps.old.caps grant.key ≡ None }
    requires spare { 0 < caps.old.spare }
    requires sends { CanSend setup.now outs.old }
    ensures row { (s : Side) →
        with_caps_vpes_parks_outs caps.new.caps vpes.new.rows park.new outs.new.boxes s
        ≡ child_sent setup.now kernel grant.parent grant.key grant.object
        (with_caps_vpes_parks_outs caps.old.caps vpes.old.rows park.old outs.old.boxes s) }
    ensures ours { vpes.new.ours ≡ vpes.old.ours }
    ensures spare { caps.old.spare ≤ caps.new.spare + 1 }
    ensures left { HasSent setup.now outs.old outs.new }
{
    let Grant {
        parent,
        key,
        object,
    } = grant;
    caps.link(parent, key);
    if setup.kernel_of(key.vpe) == kernel {
        give_here(parent, key, object, caps, vpes, park);
    } else {
        outs.send(setup.owner_of(key), granted(parent, key, object));
    }
}

// The child is installed at the selector promised to the waiting call, and the call will succeed.
fn give_here(
    parent: Key,
    key: Key,
    object: Object,
    caps: &mut Caps,
    vpes: &mut Vpes,
    park: &mut Park,
)
    requires ours { IsOurs vpes.old key.vpe }
    requires absent { cap_of caps.old.caps key ≡ None }
    requires spare { 0 < caps.old.spare }
    ensures row { (s : Side) →
        installing caps.new.caps vpes.new.rows park.new s
        ≡ given_here key parent object (state_of park.old key.vpe)
        (installing caps.old.caps vpes.old.rows park.old s) }
    ensures ours { vpes.new.ours ≡ vpes.old.ours }
    ensures spare { caps.old.spare ≤ caps.new.spare + 1 }
{
    if let Some(Parked::ObtainWait { sel, .. }) = park.state(key.vpe) {
        install(key, parent, object, sel, caps, vpes);
        let code = Code::Ok.number();
        park.park(key.vpe, Parked::Ready { code });
    }
}

// The message that a child is granted.
fn granted(parent: Key, key: Key, object: Object) -> Message
    requires object { IsValidObject object }
    requires kind { key.kind ≡ object_kind object }
    ensures message { result ≡ ObtainOk parent key object }
    ensures fits { Fits result }
{
    Message::ObtainOk {
        parent,
        key,
        object,
    }
}
