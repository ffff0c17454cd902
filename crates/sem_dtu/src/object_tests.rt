ghost use Rattle.std.specs.Prelude.{◌≡◌, not, Some, None, if◌then◌else◌};
ghost use Rattle.std.specs.Option.{option_map};
ghost use Rattle.std.specs.Result.{result_err};
ghost use Rattle.sem_msg.specs.Uses.{allows as allows_spec, is_send_gate as is_send_gate_spec};
ghost use Rattle.sem_msg.specs.Uses.{is_past_end as is_past_end_spec};
ghost use Rattle.sem_msg.specs.Uses.{are_credits_used as are_credits_used_spec};
ghost use Rattle.sem_msg.specs.declared.code.Code.TheVariants.{Rights, Range};
ghost use Rattle.sem_dtu.specs.Uses.{fault_code};

use crate::op::UseFault;
use sem_key::Object;

// Whether the object is memory with that right.
pub fn allows(object: &Object, right: u8) -> bool
    ensures { result ≡ allows_spec right object.now }
{
    match *object {
        Object::Mem { rights, .. } => right & rights == right,
        _ => false,
    }
}

pub fn is_send_gate(object: &Object) -> bool
    ensures { result ≡ is_send_gate_spec object.now }
{
    matches!(*object, Object::Send { .. })
}

// Whether that many bytes from the offset on go past the end of the memory.
pub fn is_past_end(object: &Object, off: u32, len: u32) -> bool
    ensures { result ≡ is_past_end_spec off len object.now }
{
    match *object {
        Object::Mem { len: size, .. } => u64::from(off) + u64::from(len) > u64::from(size),
        _ => true,
    }
}

// Whether that many messages use up the credits of the send gate.
pub fn are_credits_used(object: &Object, messages: usize) -> bool
    ensures { result ≡ are_credits_used_spec messages object.now }
{
    match *object {
        Object::Send { credits, .. } => messages >= usize::from(credits),
        _ => true,
    }
}

// Refuses: first for what is not allowed, then for what is out of range.
pub fn refuse(is_allowed: bool, is_out_of_range: bool) -> Result<(), UseFault>
    ensures { option_map fault_code (result_err result) ≡ (if not is_allowed then Some Rights
        else if is_out_of_range then Some Range else None) }
{
    if !is_allowed {
        Err(UseFault::Rights)
    } else if is_out_of_range {
        Err(UseFault::Range)
    } else {
        Ok(())
    }
}
