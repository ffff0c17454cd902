ghost use Rattle.std.specs.Prelude.{◌≡◌, ◌<◌, ◌≤◌, ◌+◌, true, Some};
ghost use Rattle.sem_key.specs.declared.object.Object.TheVariants.{Send};
ghost use Rattle.sem_msg.specs.Lookups.{is_declared};
ghost use Rattle.sem_msg.specs.VpeRows.{row};
ghost use Rattle.sem_vpe.specs.VpeTable.{IsOurs};
ghost use Rattle.sem_machine.specs.Sides.{Side};
ghost use Rattle.sem_machine.specs.Steps.{step_of};
ghost use Rattle.sem_machine.specs.Calls.{child_made, derive_row, gate_row};
ghost use Rattle.sem_machine.specs.Calls.{narrowed as narrowed_spec};
ghost use Rattle.sem_machine.specs.Stores.{IsNextFree, owning};
ghost use Rattle.sem_own.specs.Holding.{CanHaveChild};

use crate::refusals::{derive_refusal, gate_refusal};
use sem_caps::Caps;
use sem_key::{Key, Object};
use sem_msg::{Code, Outcome, Setup};
use sem_vpe::Vpes;

/// A part of a memory: its offset in the memory, its length, and its rights.
#[derive(Clone, Copy, Debug, PartialEq, Eq)]
pub struct Part {
    pub off: u32,
    pub len: u32,
    pub rights: u8,
}

/// What a send gate has: its label and its credits.
#[derive(Clone, Copy, Debug, PartialEq, Eq)]
pub struct Gate {
    pub label: u32,
    pub credits: u8,
}

/// The call `derive`: the VPE derives that part of the memory at `src` into its selector `dst`.
pub fn derive_call(
    setup: &Setup,
    vpe: u16,
    src: u8,
    dst: u8,
    part: &Part,
    caps: &mut Caps,
    vpes: &mut Vpes,
) -> Outcome
    requires can { CanHaveChild setup.now vpe src caps.old vpes.old }
    ensures row { (s : Side) →
        step_of result (owning caps.new.caps vpes.new.rows s)
        ≡ derive_row setup.now (owning caps.old.caps vpes.old.rows s) vpe src dst part.now.off
        part.now.len part.now.rights }
    ensures ours { vpes.new.ours ≡ vpes.old.ours }
    ensures spare { caps.old.spare ≤ caps.new.spare + 1 }
{
    if let Some(code) = derive_refusal(caps, vpes, vpe, src, dst, part) {
        return Outcome::answered(code);
    }
    let Some(parent) = vpes.held_key(vpe, src).and_then(|key| caps.get(key)) else {
        return Outcome::answered(Code::NoCap);
    };
    let key = parent.key;
    let object = narrowed(part, &parent.object);
    make_child(setup, vpe, dst, object, key, caps, vpes)
}

/// The call `gate`: the VPE makes that send gate for the receive gate at `src`, at its selector
/// `dst`.
pub fn gate_call(
    setup: &Setup,
    vpe: u16,
    src: u8,
    dst: u8,
    gate: Gate,
    caps: &mut Caps,
    vpes: &mut Vpes,
) -> Outcome
    requires can { CanHaveChild setup.now vpe src caps.old vpes.old }
    ensures row { (s : Side) →
        step_of result (owning caps.new.caps vpes.new.rows s)
        ≡ gate_row setup.now (owning caps.old.caps vpes.old.rows s) vpe src dst gate.label
        gate.credits }
    ensures ours { vpes.new.ours ≡ vpes.old.ours }
    ensures spare { caps.old.spare ≤ caps.new.spare + 1 }
{
    if let Some(code) = gate_refusal(caps, vpes, vpe, src, dst, gate.credits) {
        return Outcome::answered(code);
    }
    let Some(parent) = vpes.held_key(vpe, src).and_then(|key| caps.get(key)) else {
        return Outcome::answered(Code::NoCap);
    };
    let key = parent.key;
    let object = Object::Send {
        gate: key,
        label: gate.label,
        credits: gate.credits,
    };
    make_child(setup, vpe, dst, object, key, caps, vpes)
}

// That part of the object.
fn narrowed(part: &Part, object: &Object) -> Object
    ensures { result ≡ narrowed_spec part.now.off part.now.len part.now.rights object.now }
{
    match object {
        Object::Mem { base, .. } => Object::Mem {
            base: base.wrapping_add(part.off),
            len: part.len,
            rights: part.rights,
        },
        other => *other,
    }
}

// Makes a child with that object below a capability of the VPE itself.
fn make_child(
    setup: &Setup,
    vpe: u16,
    dst: u8,
    object: Object,
    parent: Key,
    caps: &mut Caps,
    vpes: &mut Vpes,
) -> Outcome
    requires declared { is_declared setup.now vpe ≡ true }
    requires ours { IsOurs vpes.old vpe }
    requires number { (row vpes.old.rows vpe).next_number < 4096 }
    requires free { IsNextFree setup.now caps.old.caps vpes.old.rows vpe }
    requires child_room { caps.old.child_room ≡ Some parent }
    requires spare { 0 < caps.old.spare }
    ensures row { (s : Side) →
        step_of result (owning caps.new.caps vpes.new.rows s)
        ≡ child_made setup.now vpe dst object parent (owning caps.old.caps vpes.old.rows s) }
    ensures ours { vpes.new.ours ≡ vpes.old.ours }
    ensures spare { caps.old.spare ≤ caps.new.spare + 1 }
{
    let pe = setup.pe_of(vpe);
    let Ok(number) = vpes.draw(vpe) else {
        unreachable!()
    };
    let key = Key {
        pe,
        vpe,
        kind: object.kind(),
        number,
    };
    caps.link(parent, key);
    caps.insert(key, Some(parent), dst, object);
    vpes.fill(vpe, dst, key);
    Outcome {
        asked: None,
        grant: Some((parent, key)),
        cut: None,
        reply: Some(Code::Ok.number()),
    }
}
