ghost use Rattle.std.specs.Prelude.{◌≡◌, IfOk};
ghost use Rattle.sem_msg.specs.Setup.{IsSetup};

use crate::call::Call;
use crate::list::Seq;
use sem_key::{Key, Membership, Object, OutOfMemory};
use std::alloc::Global;
use std::marker::Model;

/// A capability that a VPE holds at the start.
#[derive(Clone, Copy, Debug, PartialEq, Eq)]
pub struct Root {
    pub sel: u8,
    pub object: Object,
}

/// A service by its name, and the key of its root.
#[derive(Clone, Copy, Debug, PartialEq, Eq)]
pub struct Service {
    pub name: u8,
    pub key: Key,
}

/// What the service of that name offers under the index: the capability at a selector of its VPE.
#[derive(Clone, Copy, Debug, PartialEq, Eq)]
pub struct Offer {
    pub name: u8,
    pub index: u8,
    pub sel: u8,
}

/// The roots and services of a VPE, as declared.
pub type Roots = Seq<Root>;

/// The calls of a VPE, in the order in which it makes them.
pub type Calls = Seq<Call>;

/// The services by name.
pub type Services = Seq<Service>;

/// The offers by name and index.
pub type Offers = Seq<Offer>;

/// Pairs of VPEs, ordered by both; the first denies what the second asks.
pub type Denies = Seq<(u16, u16)>;

/// The VPEs that are killed, by number, and after how many replies each is.
pub type Kills = Seq<(u16, u64)>;

/// The VPEs by number.
pub type Vpes0 = Seq<VpeDecl>;

/// A VPE, its PE, what it holds at the start, and its calls.
#[derive(Debug, Drop)]
pub struct VpeDecl {
    pub vpe: u16,
    pub pe: u8,
    pub roots: Roots,
    pub calls: Calls,
}

impl VpeDecl {
    /// An equal declaration.
    pub fn copy(&self, alloc: Global) -> Result<VpeDecl, OutOfMemory>
        ensures { IfOk result (λ copy. copy ≡ self.now) }
    {
        Ok(VpeDecl {
            vpe: self.vpe,
            pe: self.pe,
            roots: self.roots.copy(alloc)?,
            calls: self.calls.copy(alloc)?,
        })
    }
}

/// What a trace declares. The type keeps every rule of a trace.
#[derive(Debug, Drop)]
pub struct Setup {
    /// The version of its text, 1 or 2. Kernels, PEs and VPEs have larger ranges in version 2.
    pub version: u8,
    /// The most messages in a link: 4 in version 1, 1 to 32 in version 2.
    pub window: u32,
    /// How many kernels there are: 1 to 16 in version 1, 1 to 32 in version 2.
    pub kernels: u32,
    /// Which kernel owns which PE.
    pub owners: Membership,
    pub vpes: Vpes0,
    pub services: Services,
    pub offers: Offers,
    pub denies: Denies,
    pub kills: Kills,
}

impl Model for Setup {
    ghost use Rattle.sem_msg.specs.Setup.{Setup, IsSetup};

    ghost Value = { Setup };

    ghost view = { λ s. record {
      version = s.version;
      window = s.window;
      kernels = s.kernels;
      owners = s.owners;
      vpes = s.vpes;
      services = s.services;
      offers = s.offers;
      denies = s.denies;
      kills = s.kills;
    } };

    ghost invariant = { λ s. IsSetup (record {
      version = s.version;
      window = s.window;
      kernels = s.kernels;
      owners = s.owners;
      vpes = s.vpes;
      services = s.services;
      offers = s.offers;
      denies = s.denies;
      kills = s.kills;
    }) };
}

impl Setup {
    /// Tells a proof that the setup keeps the rules of a trace, as each does. It does nothing.
    #[inline]
    pub fn keeps_its_rules(&self)
        ensures { IsSetup self.now }
    {
        let _ = &self.vpes;
    }

    /// An equal setup.
    pub fn copy(&self, alloc: Global) -> Result<Setup, OutOfMemory>
        ensures { IfOk result (λ copy. copy ≡ self.now) }
    {
        Ok(Setup {
            version: self.version,
            window: self.window,
            kernels: self.kernels,
            owners: self.owners,
            vpes: copy_vpes(&self.vpes, alloc)?,
            services: self.services.copy(alloc)?,
            offers: self.offers.copy(alloc)?,
            denies: self.denies.copy(alloc)?,
            kills: self.kills.copy(alloc)?,
        })
    }
}

fn copy_vpes(vpes: &Vpes0, alloc: Global) -> Result<Vpes0, OutOfMemory>
    ensures { IfOk result (λ copy. copy ≡ vpes.now) }
{
    let mut copy = Seq::new(alloc);
    for vpe in vpes.as_slice() {
        copy.push(vpe.copy(alloc)?)?;
    }
    Ok(copy)
}
