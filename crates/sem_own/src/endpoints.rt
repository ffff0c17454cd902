ghost use Rattle.std.specs.Prelude.{◌≡◌, ◌<◌, IfSome};
ghost use Rattle.sem_key.specs.ObjectRanges.{IsValidObject};
ghost use Rattle.sem_msg.specs.declared.limits.TheConstants.{ENDPOINTS};
ghost use Rattle.sem_vpe.specs.VpeTable.{IsOurs as IsOurVpe};
ghost use Rattle.sem_dtu.specs.EndpointTable.{IsOurs};
ghost use Rattle.sem_dtu.specs.declared.op.Op.TheVariants.{Read, Write, Credit};
ghost use Rattle.sem_machine.specs.Sides.{Side, no_side, own};
ghost use Rattle.sem_machine.specs.Steps.{step_of};
ghost use Rattle.sem_machine.specs.Calls.{bind_row, credit_row, memory_row, send_row};
ghost use Rattle.sem_machine.specs.Stores.{owning, with_endpoints};
ghost use Rattle.sem_own.specs.Using.{use_row};

use crate::refusals::bind_refusal;
use sem_caps::Caps;
use sem_dtu::{Dtus, Op};
use sem_msg::{Code, Outcome};
use sem_vpe::Vpes;

/// The call `bind`: the VPE binds an endpoint to the capability at `src`. The old binding is
/// forgotten, and so are the messages sent through it.
pub fn bind_call(vpe: u16, ep: u8, src: u8, caps: &Caps, vpes: &Vpes, dtus: &mut Dtus) -> Outcome
    requires vpe { IsOurVpe vpes.now vpe }
    requires ours { IsOurs dtus.old vpe }
    requires ep { ep < ENDPOINTS }
    requires valid { IfSome (own (owning caps.now.caps vpes.now.rows no_side) vpe src)
        (λ c. IsValidObject c.object) }
    ensures row { (s : Side) →
        step_of result (with_endpoints dtus.new.rows (owning caps.now.caps vpes.now.rows s))
        ≡ bind_row (with_endpoints dtus.old.rows (owning caps.now.caps vpes.now.rows s))
        vpe ep src }
    ensures ours { dtus.new.ours ≡ dtus.old.ours }
{
    if let Some(code) = bind_refusal(caps, vpes, vpe, src) {
        return Outcome::answered(code);
    }
    let Some(cap) = vpes.held_key(vpe, src).and_then(|key| caps.get(key)) else {
        return Outcome::answered(Code::NoCap);
    };
    dtus.bind(vpe, ep, cap.key, cap.object);
    Outcome::answered(Code::Ok)
}

/// The call `read`: the VPE reads `len` bytes from the offset on, from the memory that the endpoint
/// is bound to.
pub fn read_call(vpe: u16, ep: u8, off: u32, len: u32, dtus: &mut Dtus) -> Outcome
    requires ours { IsOurs dtus.old vpe }
    requires ep { ep < ENDPOINTS }
    ensures row { (s : Side) →
        step_of result (with_endpoints dtus.new.rows s)
        ≡ memory_row (with_endpoints dtus.old.rows s) vpe ep 1 off len }
    ensures ours { dtus.new.ours ≡ dtus.old.ours }
{
    used(vpe, ep, Op::Read { off, len }, dtus)
}

/// The call `write`: the VPE writes `len` bytes from the offset on, to the memory that the endpoint
/// is bound to.
pub fn write_call(vpe: u16, ep: u8, off: u32, len: u32, dtus: &mut Dtus) -> Outcome
    requires ours { IsOurs dtus.old vpe }
    requires ep { ep < ENDPOINTS }
    ensures row { (s : Side) →
        step_of result (with_endpoints dtus.new.rows s)
        ≡ memory_row (with_endpoints dtus.old.rows s) vpe ep 2 off len }
    ensures ours { dtus.new.ours ≡ dtus.old.ours }
{
    used(vpe, ep, Op::Write { off, len }, dtus)
}

/// The call `send`: the VPE sends a message of `len` bytes through the gate that the endpoint is
/// bound to.
pub fn send_call(vpe: u16, ep: u8, len: u32, dtus: &mut Dtus) -> Outcome
    requires ours { IsOurs dtus.old vpe }
    requires ep { ep < ENDPOINTS }
    ensures row { (s : Side) →
        step_of result (with_endpoints dtus.new.rows s)
        ≡ send_row (with_endpoints dtus.old.rows s) vpe ep len }
    ensures ours { dtus.new.ours ≡ dtus.old.ours }
{
    used(vpe, ep, Op::Send { len }, dtus)
}

/// The call `credit`: the VPE takes back the credit of the oldest message that it sent through the
/// endpoint.
pub fn credit_call(vpe: u16, ep: u8, dtus: &mut Dtus) -> Outcome
    requires ours { IsOurs dtus.old vpe }
    requires ep { ep < ENDPOINTS }
    ensures row { (s : Side) →
        step_of result (with_endpoints dtus.new.rows s)
        ≡ credit_row (with_endpoints dtus.old.rows s) vpe ep }
    ensures ours { dtus.new.ours ≡ dtus.old.ours }
{
    used(vpe, ep, Op::Credit, dtus)
}

// Does the operation, or says why not.
fn used(vpe: u16, ep: u8, op: Op, dtus: &mut Dtus) -> Outcome
    requires ours { IsOurs dtus.old vpe }
    requires ep { ep < ENDPOINTS }
    ensures row { (s : Side) →
        step_of result (with_endpoints dtus.new.rows s)
        ≡ use_row op vpe ep (with_endpoints dtus.old.rows s) }
    ensures ours { dtus.new.ours ≡ dtus.old.ours }
{
    match dtus.use_endpoint(vpe, ep, op) {
        Ok(()) => Outcome::answered(Code::Ok),
        Err(fault) => Outcome::answered(Code::from(fault)),
    }
}
