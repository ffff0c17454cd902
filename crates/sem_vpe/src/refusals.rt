ghost use Rattle.std.specs.Prelude.{◌≡◌, ◌==◌, ◌&&◌, nat_le, not, Some, None, IfSome};
ghost use Rattle.std.specs.Prelude.{if◌then◌else◌};
ghost use Rattle.sem_key.specs.declared.limits.TheConstants.{NUMBERS as NUMBERS_spec};
ghost use Rattle.sem_msg.specs.declared.code.Code.TheVariants.{Occupied, Numbers};
ghost use Rattle.sem_msg.specs.Codes.{code_number};
ghost use Rattle.sem_msg.specs.Message.{IsRefusal};
ghost use Rattle.sem_msg.specs.Lookups.{kernel_of};
ghost use Rattle.sem_msg.specs.VpeRows.{row, is_alive, slot, is_taken};
ghost use Rattle.sem_vpe.specs.VpeTable.{AreOurs, IsOurs};

use crate::vpes::Vpes;
use sem_key::NUMBERS;
use sem_msg::{Code, Setup, Slot};

impl Vpes {
    /// Why the selector can't be the destination of a new capability.
    pub fn destination_refusal(&self, vpe: u16, sel: u8) -> Option<Code>
        requires { IsOurs self.now vpe }
        ensures code { result ≡ (if is_taken (slot self.now.rows vpe sel) then Some Occupied
            else if nat_le NUMBERS_spec (row self.now.rows vpe).next_number then Some Numbers
            else None) }
        ensures refusal { IfSome result (λ code. IsRefusal (code_number code)) }
    {
        match self.selector(vpe, sel) {
            Slot::Held(_) | Slot::Promised => Some(Code::Occupied),
            Slot::Free if self.next_number(vpe) >= NUMBERS => Some(Code::Numbers),
            Slot::Free => None,
        }
    }

    /// Whether the VPE belongs to this kernel and is dead.
    pub fn is_local_dead(&self, setup: &Setup, kernel: u32, vpe: u16) -> bool
        requires { AreOurs setup.now kernel self.now }
        ensures { result ≡ ((kernel_of setup.now vpe == kernel)
            && not (is_alive self.now.rows vpe)) }
    {
        setup.kernel_of(vpe) == kernel && !self.alive(vpe)
    }
}
