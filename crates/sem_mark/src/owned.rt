ghost use Rattle.std.specs.Prelude.{◌≡◌};
ghost use Rattle.sem_vpe.specs.VpeTable.{IsOurs};
ghost use Rattle.sem_machine.specs.Sides.{no_side, own};
ghost use Rattle.sem_machine.specs.Steps.{first_code};
ghost use Rattle.sem_machine.specs.Calls.{own_tests};
ghost use Rattle.sem_machine.specs.Stores.{owning};

use sem_caps::Caps;
use sem_msg::Code;
use sem_vpe::Vpes;

// Why the VPE can't clear the capability at that selector: it holds none, or one that is being
// revoked.
pub fn own_refusal(caps: &Caps, vpes: &Vpes, vpe: u16, sel: u8) -> Option<Code>
    requires { IsOurs vpes.now vpe }
    ensures { result ≡ first_code
        (own_tests (own (owning caps.now.caps vpes.now.rows no_side) vpe sel)) }
{
    match vpes.held_key(vpe, sel).and_then(|key| caps.get(key)) {
        None => Some(Code::NoCap),
        Some(cap) if cap.mark.is_some() => Some(Code::Revoking),
        Some(_) => None,
    }
}
