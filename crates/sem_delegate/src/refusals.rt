ghost use Rattle.std.specs.Prelude.{◌≡◌, ◌++◌};
ghost use Rattle.sem_key.specs.CapList.{cap_of};
ghost use Rattle.sem_vpe.specs.VpeTable.{IsOurs};
ghost use Rattle.sem_vpe.specs.Telling.{IsKept};
ghost use Rattle.sem_machine.specs.Sides.{no_side};
ghost use Rattle.sem_machine.specs.Steps.{first_code};
ghost use Rattle.sem_machine.specs.Calls.{delegate_tests, destination_tests};
ghost use Rattle.sem_machine.specs.Stores.{owning, with_vpes};
ghost use Rattle.sem_machine.specs.Upcalls.{parent_tests};

use sem_caps::Caps;
use sem_key::{Key, Object};
use sem_msg::{Code, Setup};
use sem_vpe::Vpes;

// Why the VPE can't delegate the capability at `src` to the other one.
pub fn delegate_refusal(
    setup: &Setup,
    kernel: u32,
    vpe: u16,
    src: u8,
    other: u16,
    caps: &Caps,
    vpes: &Vpes,
) -> Option<Code>
    requires { IsKept setup.now kernel vpe vpes.now }
    ensures { result ≡ first_code (delegate_tests setup.now kernel
        (owning caps.now.caps vpes.now.rows no_side) vpe src other) }
{
    if other == vpe {
        return Some(Code::SelfExchange);
    }
    if !setup.is_declared(other) {
        return Some(Code::NoVpe);
    }
    let Some(cap) = vpes.held_key(vpe, src).and_then(|key| caps.get(key)) else {
        return Some(Code::NoCap);
    };
    if cap.mark.is_some() {
        return Some(Code::Revoking);
    }
    match cap.object {
        Object::Serv { .. } | Object::Sess { .. } => Some(Code::BadKind),
        _ if vpes.is_local_dead(setup, kernel, other) => Some(Code::Dead),
        _ => None,
    }
}

// Why the capability of that key can't get a child.
pub fn parent_refusal(caps: &Caps, parent: Key) -> Option<Code>
    ensures { result ≡ first_code (parent_tests (cap_of caps.now.caps parent)) }
{
    match caps.get(parent) {
        None => Some(Code::Gone),
        Some(cap) if cap.mark.is_some() => Some(Code::Revoking),
        Some(_) => None,
    }
}

// Why the capability of that key can't get a child at the selector of the VPE.
pub fn consent_refusal(caps: &Caps, vpes: &Vpes, vpe: u16, parent: Key, sel: u8) -> Option<Code>
    requires { IsOurs vpes.now vpe }
    ensures { result ≡ first_code (parent_tests (cap_of caps.now.caps parent)
        ++ destination_tests (with_vpes vpes.now.rows no_side) vpe sel) }
{
    match caps.get(parent) {
        None => Some(Code::Gone),
        Some(held) if held.mark.is_none() => vpes.destination_refusal(vpe, sel),
        Some(_) => Some(Code::Revoking),
    }
}
