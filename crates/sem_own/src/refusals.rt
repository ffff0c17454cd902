ghost use Rattle.std.specs.Prelude.{◌≡◌};
ghost use Rattle.sem_vpe.specs.VpeTable.{IsOurs};
ghost use Rattle.sem_machine.specs.Sides.{no_side};
ghost use Rattle.sem_machine.specs.Steps.{first_code};
ghost use Rattle.sem_machine.specs.Calls.{bind_tests, derive_tests};
ghost use Rattle.sem_machine.specs.Calls.{gate_tests};
ghost use Rattle.sem_machine.specs.Calls.{is_wider as is_wider_spec};
ghost use Rattle.sem_machine.specs.Stores.{owning};

use crate::children::Part;
use sem_caps::Caps;
use sem_key::Object;
use sem_msg::Code;
use sem_vpe::Vpes;

// Whether the part goes past the end of the memory, or has more rights.
fn is_wider(part: &Part, object: &Object) -> bool
    ensures { result ≡ is_wider_spec part.now.off part.now.len part.now.rights object.now }
{
    match object {
        Object::Mem { len, rights, .. } => {
            u64::from(part.off) + u64::from(part.len) > u64::from(*len)
                || part.rights & *rights != part.rights
        }
        _ => true,
    }
}

// Why the VPE can't derive that part of the memory at `src` into `dst`.
pub fn derive_refusal(
    caps: &Caps,
    vpes: &Vpes,
    vpe: u16,
    src: u8,
    dst: u8,
    part: &Part,
) -> Option<Code>
    requires { IsOurs vpes.now vpe }
    ensures { result ≡ first_code
        (derive_tests (owning caps.now.caps vpes.now.rows no_side) vpe src dst part.now.off
        part.now.len part.now.rights) }
{
    let Some(cap) = vpes.held_key(vpe, src).and_then(|key| caps.get(key)) else {
        return Some(Code::NoCap);
    };
    if cap.mark.is_some() {
        return Some(Code::Revoking);
    }
    match &cap.object {
        Object::Mem { .. } if is_wider(part, &cap.object) => Some(Code::Wider),
        Object::Mem { .. } => vpes.destination_refusal(vpe, dst),
        _ => Some(Code::BadKind),
    }
}

// Why the VPE can't make a gate with that many credits for the receive gate at `src`, at `dst`.
pub fn gate_refusal(
    caps: &Caps,
    vpes: &Vpes,
    vpe: u16,
    src: u8,
    dst: u8,
    credits: u8,
) -> Option<Code>
    requires { IsOurs vpes.now vpe }
    ensures { result ≡ first_code
        (gate_tests (owning caps.now.caps vpes.now.rows no_side) vpe src dst credits) }
{
    let Some(cap) = vpes.held_key(vpe, src).and_then(|key| caps.get(key)) else {
        return Some(Code::NoCap);
    };
    if cap.mark.is_some() {
        return Some(Code::Revoking);
    }
    match cap.object {
        Object::Recv { slots } if slots < credits => Some(Code::Wider),
        Object::Recv { .. } => vpes.destination_refusal(vpe, dst),
        _ => Some(Code::BadKind),
    }
}

// Why the VPE can't bind an endpoint to the capability at `src`.
pub fn bind_refusal(caps: &Caps, vpes: &Vpes, vpe: u16, src: u8) -> Option<Code>
    requires { IsOurs vpes.now vpe }
    ensures { result ≡ first_code
        (bind_tests (owning caps.now.caps vpes.now.rows no_side) vpe src) }
{
    let Some(cap) = vpes.held_key(vpe, src).and_then(|key| caps.get(key)) else {
        return Some(Code::NoCap);
    };
    if cap.mark.is_some() {
        return Some(Code::Revoking);
    }
    match cap.object {
        Object::Serv { .. } | Object::Sess { .. } => Some(Code::BadKind),
        _ => None,
    }
}
