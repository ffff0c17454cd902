ghost use Rattle.std.specs.Prelude.{◌≡◌, IfSome};
ghost use Rattle.sem_msg.specs.Codes.{code_number};
ghost use Rattle.sem_msg.specs.Message.{IsRefusal};
ghost use Rattle.sem_vpe.specs.VpeTable.{IsOurs};
ghost use Rattle.sem_vpe.specs.Telling.{IsKept};
ghost use Rattle.sem_machine.specs.Sides.{no_side};
ghost use Rattle.sem_machine.specs.Steps.{first_code};
ghost use Rattle.sem_machine.specs.Calls.{obtain_tests, offer_tests, open_tests};
ghost use Rattle.sem_machine.specs.Stores.{owning, with_vpes};
ghost use Rattle.sem_machine.specs.Upcalls.{source as source_spec, source_tests};

use crate::lookups::{service_key, source};
use sem_caps::Caps;
use sem_key::Object;
use sem_msg::{Code, Setup, Target};
use sem_vpe::Vpes;

// Why the VPE can't obtain from the other one.
pub fn obtain_refusal(
    setup: &Setup,
    kernel: u32,
    vpe: u16,
    dst: u8,
    other: u16,
    vpes: &Vpes,
) -> Option<Code>
    requires { IsKept setup.now kernel vpe vpes.now }
    ensures { result ≡ first_code
        (obtain_tests setup.now kernel (with_vpes vpes.now.rows no_side) vpe dst other) }
{
    if other == vpe {
        return Some(Code::SelfExchange);
    }
    if !setup.is_declared(other) {
        return Some(Code::NoVpe);
    }
    if vpes.is_local_dead(setup, kernel, other) {
        return Some(Code::Dead);
    }
    vpes.destination_refusal(vpe, dst)
}

// Why the VPE can't open a session with the service of that name.
pub fn open_refusal(
    setup: &Setup,
    kernel: u32,
    vpe: u16,
    dst: u8,
    name: u8,
    vpes: &Vpes,
) -> Option<Code>
    requires { IsKept setup.now kernel vpe vpes.now }
    ensures { result ≡ first_code
        (open_tests setup.now kernel (with_vpes vpes.now.rows no_side) vpe dst name) }
{
    let Some(service) = service_key(setup, name) else {
        return Some(Code::NoService);
    };
    if service.vpe == vpe {
        return Some(Code::SelfExchange);
    }
    if vpes.is_local_dead(setup, kernel, service.vpe) {
        return Some(Code::Dead);
    }
    vpes.destination_refusal(vpe, dst)
}

// Why the VPE can't ask for what the service of that session offers.
pub fn offer_refusal(
    setup: &Setup,
    kernel: u32,
    vpe: u16,
    dst: u8,
    session: u8,
    caps: &Caps,
    vpes: &Vpes,
) -> Option<Code>
    requires { IsKept setup.now kernel vpe vpes.now }
    ensures { result ≡ first_code (offer_tests setup.now kernel
        (owning caps.now.caps vpes.now.rows no_side) vpe dst session) }
{
    let Some(cap) = vpes.held_key(vpe, session).and_then(|key| caps.get(key)) else {
        return Some(Code::NoCap);
    };
    if cap.mark.is_some() {
        return Some(Code::Revoking);
    }
    let Object::Sess { service, .. } = cap.object else {
        return Some(Code::BadKind);
    };
    if vpes.is_local_dead(setup, kernel, service.vpe) {
        return Some(Code::Dead);
    }
    vpes.destination_refusal(vpe, dst)
}

// Why the VPE can't give what it is asked for.
pub fn source_refusal(
    setup: &Setup,
    vpe: u16,
    target: &Target,
    caps: &Caps,
    vpes: &Vpes,
) -> Option<Code>
    requires { IsOurs vpes.now vpe }
    ensures code { result
        ≡ first_code (source_tests target.now
        (source_spec setup.now (owning caps.now.caps vpes.now.rows no_side) vpe target.now)) }
    ensures refusal { IfSome result (λ code. IsRefusal (code_number code)) }
{
    let Some(cap) = source(setup, vpe, target, caps, vpes) else {
        return Some(Code::NoCap);
    };
    match (target, &cap.object) {
        _ if cap.mark.is_some() => Some(Code::Revoking),
        (Target::Serv { .. }, _) => None,
        (_, Object::Serv { .. } | Object::Sess { .. }) => Some(Code::BadKind),
        _ => None,
    }
}
