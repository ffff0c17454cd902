ghost use Rattle.std.specs.Prelude.{◌≡◌, true, IfSome};
ghost use Rattle.sem_msg.specs.Lookups.{is_declared};
ghost use Rattle.sem_msg.specs.declared.message.Target.TheVariants.{Offer as OfferTarget};
ghost use Rattle.sem_msg.specs.declared.message.Target.TheVariants.{Sel as SelTarget};
ghost use Rattle.sem_msg.specs.declared.message.Target.TheVariants.{Serv as ServTarget};
ghost use Rattle.sem_key.specs.declared.key.Kind.TheVariants.{Serv as ServKind};
ghost use Rattle.sem_msg.specs.Message.{IsValidTarget};
ghost use Rattle.sem_msg.specs.Outboxes.{HasSent};
ghost use Rattle.sem_vpe.specs.Telling.{CanAsk};
ghost use Rattle.sem_machine.specs.Sides.{Side, no_side, own};
ghost use Rattle.sem_machine.specs.Steps.{step_of};
ghost use Rattle.sem_machine.specs.Sound.{IsSoundObject};
ghost use Rattle.sem_machine.specs.Calls.{obtain_row, offer_row, open_row};
ghost use Rattle.sem_machine.specs.Stores.{owning, with_caps_vpes_parks_outs, with_vpes_parks_outs};

use crate::asks::{Wish, make_ask};
use crate::lookups::{service_key, session_service};
use crate::refusals::{obtain_refusal, offer_refusal, open_refusal};
use sem_caps::Caps;
use sem_key::Key;
use sem_msg::{Code, Outboxes, Outcome, Setup, Target};
use sem_park::Park;
use sem_vpe::Vpes;

/// The call `obtain`: the VPE asks another one for the capability at its selector `src`, to stand
/// at `dst`. The call waits, unless it is refused at once.
pub fn obtain_call(
    setup: &Setup,
    kernel: u32,
    vpe: u16,
    dst: u8,
    other: u16,
    src: u8,
    vpes: &mut Vpes,
    park: &mut Park,
    outs: &mut Outboxes,
) -> Outcome
    requires { CanAsk setup.now kernel vpe vpes.old outs.old }
    ensures row { (s : Side) →
        step_of result (with_vpes_parks_outs vpes.new.rows park.new outs.new.boxes s)
        ≡ obtain_row setup.now kernel (with_vpes_parks_outs vpes.old.rows park.old outs.old.boxes s)
        vpe dst other src }
    ensures ours { vpes.new.ours ≡ vpes.old.ours }
    ensures left { HasSent setup.now outs.old outs.new }
{
    if let Some(code) = obtain_refusal(setup, kernel, vpe, dst, other, vpes) {
        return Outcome::answered(code);
    }
    let target = selector(setup, other, src);
    make_ask(setup, kernel, vpe, Wish { target, dst }, vpes, park, outs);
    Outcome::nothing()
}

// The selector of a declared VPE, as a target.
fn selector(setup: &Setup, vpe: u16, sel: u8) -> Target
    requires { is_declared setup.now vpe ≡ true }
    ensures target { result ≡ SelTarget vpe sel }
    ensures valid { IsValidTarget result }
{
    let _ = setup.declared_kernel(vpe);
    Target::Sel { vpe, sel }
}

/// The call `open`: the VPE asks for a session with the service of that name, to stand at `dst`.
/// The call waits, unless it is refused at once.
pub fn open_call(
    setup: &Setup,
    kernel: u32,
    vpe: u16,
    dst: u8,
    name: u8,
    vpes: &mut Vpes,
    park: &mut Park,
    outs: &mut Outboxes,
) -> Outcome
    requires { CanAsk setup.now kernel vpe vpes.old outs.old }
    ensures row { (s : Side) →
        step_of result (with_vpes_parks_outs vpes.new.rows park.new outs.new.boxes s)
        ≡ open_row setup.now kernel (with_vpes_parks_outs vpes.old.rows park.old outs.old.boxes s)
        vpe dst name }
    ensures ours { vpes.new.ours ≡ vpes.old.ours }
    ensures left { HasSent setup.now outs.old outs.new }
{
    if let Some(code) = open_refusal(setup, kernel, vpe, dst, name, vpes) {
        return Outcome::answered(code);
    }
    let Some(service) = service_key(setup, name) else {
        return Outcome::answered(Code::NoService);
    };
    let target = session_with(service);
    make_ask(setup, kernel, vpe, Wish { target, dst }, vpes, park, outs);
    Outcome::nothing()
}

/// The call `ask`: the VPE asks for what the service of its session offers under an index, to stand
/// at `dst`. The call waits, unless it is refused at once.
pub fn offer_call(
    setup: &Setup,
    kernel: u32,
    vpe: u16,
    dst: u8,
    session: u8,
    index: u8,
    caps: &Caps,
    vpes: &mut Vpes,
    park: &mut Park,
    outs: &mut Outboxes,
) -> Outcome
    requires can { CanAsk setup.now kernel vpe vpes.old outs.old }
    requires session { IfSome (own (owning caps.now.caps vpes.old.rows no_side) vpe session)
        (λ c. IsSoundObject setup.now c.object) }
    ensures row { (s : Side) →
        step_of result
        (with_caps_vpes_parks_outs caps.now.caps vpes.new.rows park.new outs.new.boxes s)
        ≡ offer_row setup.now kernel
        (with_caps_vpes_parks_outs caps.now.caps vpes.old.rows park.old outs.old.boxes s) vpe dst
        session index }
    ensures ours { vpes.new.ours ≡ vpes.old.ours }
    ensures left { HasSent setup.now outs.old outs.new }
{
    if let Some(code) = offer_refusal(setup, kernel, vpe, dst, session, caps, vpes) {
        return Outcome::answered(code);
    }
    let Some(service) = session_service(caps, vpes, vpe, session) else {
        return Outcome::answered(Code::BadKind);
    };
    let target = offer_of(service, index);
    make_ask(setup, kernel, vpe, Wish { target, dst }, vpes, park, outs);
    Outcome::nothing()
}

// A session with the service of that key, as a target.
fn session_with(service: Key) -> Target
    requires { service.kind ≡ ServKind }
    ensures target { result ≡ ServTarget service }
    ensures valid { IsValidTarget result }
{
    Target::Serv { service }
}

// What the service of that key offers under the index, as a target.
fn offer_of(service: Key, index: u8) -> Target
    requires { service.kind ≡ ServKind }
    ensures target { result ≡ OfferTarget service index }
    ensures valid { IsValidTarget result }
{
    Target::Offer { service, index }
}
