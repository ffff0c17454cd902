ghost use Rattle.std.specs.Prelude.{◌≡◌, ◌<◌, ◌≤◌, ◌↔◌, [], All, Contains, IsTrue, IfSome};
ghost use Rattle.sem_msg.specs.JobRows.{with_number, without_number, waiters_of};
ghost use Rattle.sem_jobs.specs.VpeSet.{IsVpeList};

use sem_key::VPES;
use std::marker::Model;

/// VPEs, 0 to 127, each at most once.
#[derive(Debug, Drop)]
pub struct VpeList {
    // A bit for each VPE.
    mask: u128,
}

impl Model for VpeList {
    ghost use Rattle.std.specs.Prelude.{ℕ, List};
    ghost use Rattle.sem_jobs.specs.VpeSet.{members};

    ghost Value = { List ℕ };

    ghost view = { λ l. members l.mask };
}

impl VpeList {
    /// Whether the VPE is in the list.
    pub fn has(&self, vpe: u16) -> bool
        ensures has { IsTrue result ↔ Contains self.now vpe }
        ensures list { IsVpeList self.now }
    {
        vpe < VPES && self.mask >> vpe & 1 == 1
    }

    /// The least VPE of the list; 128 if it is empty.
    pub fn first(&self) -> u16
        ensures first { All (λ v. result ≤ v) self.now }
        ensures there { result < VPES → Contains self.now result }
        ensures list { IsVpeList self.now }
    {
        let mask = self.mask;
        mask.trailing_zeros() as u16
    }

    pub(crate) fn empty() -> Self
        ensures { result ≡ [] }
    {
        VpeList { mask: 0 }
    }

    // The VPE, if one is given.
    pub(crate) fn of(vpe: Option<u16>) -> Self
        requires { IfSome vpe (λ v. v < VPES) }
        ensures { result ≡ waiters_of vpe }
    {
        let mut list = VpeList::empty();
        if let Some(vpe) = vpe {
            list.insert(vpe);
        }
        list
    }

    pub(crate) fn copy(&self) -> Self
        ensures { result ≡ self.now }
    {
        VpeList { mask: self.mask }
    }

    // Adds the VPE, unless it is there.
    pub(crate) fn insert(&mut self, vpe: u16)
        requires { vpe < VPES }
        ensures { self.new ≡ with_number self.old vpe }
    {
        self.mask |= 1 << vpe;
    }

    // Takes the VPE out, if it is there.
    pub(crate) fn remove(&mut self, vpe: u16)
        ensures { self.new ≡ without_number self.old vpe }
    {
        if vpe < VPES {
            self.mask &= !(1 << vpe);
        }
    }
}
