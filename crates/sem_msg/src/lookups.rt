ghost use Rattle.std.specs.Prelude.{◌≡◌, ◌<◌, true, option_copied, IfSome};
ghost use Rattle.sem_key.specs.declared.limits.TheConstants.{VPES};
ghost use Rattle.sem_msg.specs.Setup.{IsVpeDecl};
ghost use Rattle.sem_msg.specs.Fabric.{is_due as is_due_spec};
ghost use Rattle.sem_msg.specs.Journal.{kill_number as kill_number_spec};
ghost use Rattle.sem_msg.specs.Lookups.{decl as decl_spec, own_decl as own_decl_spec};
ghost use Rattle.sem_msg.specs.Lookups.{is_own as is_own_spec, is_declared as is_declared_spec};
ghost use Rattle.sem_msg.specs.Lookups.{is_declared_at as is_declared_at_spec};
ghost use Rattle.sem_msg.specs.Lookups.{denies as denies_spec};
ghost use Rattle.sem_msg.specs.Lookups.{pe_of as pe_of_spec, pe_owner as pe_owner_spec};
ghost use Rattle.sem_msg.specs.Lookups.{owner_of as owner_of_spec, place_owner as place_owner_spec};
ghost use Rattle.sem_msg.specs.Lookups.{kernel_of as kernel_of_spec, HasValidPlace};
ghost use Rattle.sem_msg.specs.Lookups.{is_key_declared as is_key_declared_spec};
ghost use Rattle.sem_msg.specs.Lookups.{is_target_declared as is_target_declared_spec};
ghost use Rattle.sem_msg.specs.Lookups.{is_object_declared as is_object_declared_spec};
ghost use Rattle.sem_msg.specs.Lookups.{is_other_kernel as is_other_kernel_spec};

use crate::message::Target;
use crate::setup::{Setup, VpeDecl};
use sem_key::{Key, Object, PES, Place};

impl Setup {
    /// The declaration of a VPE; none if it is not declared.
    pub fn decl(&self, vpe: u16) -> Option<&VpeDecl>
        ensures decl { option_copied result ≡ decl_spec self.now vpe }
        ensures valid { IfSome (option_copied result) (IsVpeDecl self.now) }
    {
        let decls = self.vpes.as_slice();
        // Where VPEs 0, 1, 2 and so on are declared, each stands at its number.
        let guess = vpe as usize;
        if guess < decls.len() && decls[guess].vpe == vpe {
            return Some(&decls[guess]);
        }
        let at = decls.binary_search_by_key(&vpe, |decl| decl.vpe).ok()?;
        Some(&decls[at])
    }

    /// The declaration of a VPE of that kernel; none if the kernel has no such VPE.
    pub fn own_decl(&self, kernel: u32, vpe: u16) -> Option<&VpeDecl>
        ensures decl { option_copied result ≡ own_decl_spec self.now kernel vpe }
        ensures valid { IfSome (option_copied result) (IsVpeDecl self.now) }
    {
        self.decl(vpe)
            .filter(|decl| self.pe_owner(decl.pe) == kernel)
    }

    /// Whether the VPE is one of that kernel.
    pub fn is_own(&self, kernel: u32, vpe: u16) -> bool
        ensures { result ≡ is_own_spec self.now kernel vpe }
    {
        self.own_decl(kernel, vpe).is_some()
    }

    /// Whether the VPE is declared.
    pub fn is_declared(&self, vpe: u16) -> bool
        ensures { result ≡ is_declared_spec self.now vpe }
    {
        self.vpes.as_slice().iter().any(|decl| decl.vpe == vpe)
    }

    /// The PE of a VPE; 128, which is no PE, if the VPE is not declared.
    pub fn pe_of(&self, vpe: u16) -> u8
        ensures pe { result ≡ pe_of_spec self.now vpe }
        ensures placed { is_declared_spec self.now vpe ≡ true → HasValidPlace self.now vpe }
    {
        self.decl(vpe).map_or(PES as u8, |decl| decl.pe)
    }

    /// The kernel that owns a PE; if none does, the number of kernels, which is no kernel.
    pub fn pe_owner(&self, pe: u8) -> u32
        ensures { result ≡ pe_owner_spec self.now pe }
    {
        self.owners.owner(pe).unwrap_or(self.kernels)
    }

    /// The kernel that owns a key; if none does, the number of kernels, which is no kernel.
    pub fn owner_of(&self, key: Key) -> u32
        ensures { result ≡ owner_of_spec self.now key }
    {
        self.pe_owner(key.pe)
    }

    /// The kernel that owns a place; if none does, the number of kernels, which is no kernel.
    pub fn place_owner(&self, place: Place) -> u32
        ensures { result ≡ place_owner_spec self.now place }
    {
        self.pe_owner(place.pe)
    }

    /// The kernel of a VPE; if it is not declared, the number of kernels, which is no kernel.
    pub fn kernel_of(&self, vpe: u16) -> u32
        ensures { result ≡ kernel_of_spec self.now vpe }
    {
        match self.decl(vpe) {
            Some(decl) => self.pe_owner(decl.pe),
            None => self.kernels,
        }
    }

    /// The kernel of a declared VPE.
    pub fn declared_kernel(&self, vpe: u16) -> u32
        requires { is_declared_spec self.now vpe ≡ true }
        ensures kernel { result ≡ kernel_of_spec self.now vpe }
        ensures below { result < self.now.kernels }
        ensures vpe { vpe < VPES }
    {
        let kernel = self.kernel_of(vpe);
        if kernel >= self.kernels {
            unreachable!()
        }
        kernel
    }

    /// Whether the VPE is declared on that PE.
    pub fn is_declared_at(&self, pe: u8, vpe: u16) -> bool
        ensures { result ≡ is_declared_at_spec self.now pe vpe }
    {
        match self.decl(vpe) {
            Some(decl) => decl.pe == pe,
            None => false,
        }
    }

    /// Whether the VPE of the key is declared on the PE of the key.
    pub fn is_key_declared(&self, key: &Key) -> bool
        ensures { result ≡ is_key_declared_spec self.now key.now }
    {
        self.is_declared_at(key.pe, key.vpe)
    }

    /// Whether the service that the target names is declared; true if it names none.
    pub fn is_target_declared(&self, target: &Target) -> bool
        ensures { result ≡ is_target_declared_spec self.now target.now }
    {
        match target {
            Target::Sel { .. } => true,
            Target::Serv { service } | Target::Offer { service, .. } => {
                self.is_key_declared(service)
            }
        }
    }

    /// Whether the gate or the service that the object names is declared; true if it names none.
    pub fn is_object_declared(&self, object: &Object) -> bool
        ensures { result ≡ is_object_declared_spec self.now object.now }
    {
        match object {
            Object::Mem { .. } | Object::Recv { .. } | Object::Serv { .. } => true,
            Object::Send { gate, .. } => self.is_key_declared(gate),
            Object::Sess { service, .. } => self.is_key_declared(service),
        }
    }

    /// Whether the other kernel is one of the setup, and not that kernel.
    pub fn is_other_kernel(&self, kernel: u32, other: u32) -> bool
        ensures { result ≡ is_other_kernel_spec self.now kernel other }
    {
        other < self.kernels && other != kernel
    }

    /// After how many replies the VPE is killed; none if it never is.
    pub fn kill_number(&self, vpe: u16) -> Option<u64>
        ensures { result ≡ kill_number_spec self.now vpe }
    {
        let kill = self.kills.as_slice().iter().find(|kill| kill.0 == vpe)?;
        Some(kill.1)
    }

    /// Whether the VPE is due to be killed after that many replies.
    pub fn is_due(&self, replies: u64, vpe: u16) -> bool
        ensures { result ≡ is_due_spec self.now replies vpe }
    {
        match self.kill_number(vpe) {
            Some(number) => number <= replies,
            None => false,
        }
    }

    /// Whether the VPE denies what the asker asks.
    pub fn denies(&self, vpe: u16, asker: u16) -> bool
        ensures { result ≡ denies_spec self.now vpe asker }
    {
        self.denies
            .as_slice()
            .iter()
            .any(|pair| pair.0 == vpe && pair.1 == asker)
    }
}
