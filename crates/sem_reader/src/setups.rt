// The setup of the tables.
ghost use Rattle.std.specs.Prelude.{map as list_map, ◌≡◌, ℕ, ◌<◌, ◌++◌, List, All};
ghost use Rattle.std.specs.Prelude.{option_map, option_to_list, IfOk, OnOk};
ghost use Rattle.sem_key.specs.declared.limits.TheConstants.{NUMBERS};
ghost use Rattle.sem_msg.specs.Setup.{services_from, service_with as service_with_spec};
ghost use Rattle.sem_key.specs.declared.limits.TheConstants.{VPES as VPES_SPEC};
ghost use Rattle.sem_trace.specs.declared.declaration.Declaration.{Declaration as DeclarationData};
ghost use Rattle.sem_trace.specs.Earlier.{vpe_in, kill_in};
ghost use Rattle.sem_trace.specs.SetupOfText.{vpes_of, services_among as services_among_spec};
ghost use Rattle.sem_trace.specs.SetupOfText.{named as named_spec, services_of as services_of_spec};
ghost use Rattle.sem_trace.specs.SetupOfText.{offers_of, denies_of, kills_of, setup_of};
ghost use Rattle.std.specs.List.Sorted.{IsPermutation, IsSorted};
ghost use Rattle.indexmap.specs.IndexMap as map;
ghost use Rattle.indexmap.specs.IndexSet.{IsUnique};
ghost use Rattle.sem_reader.specs.Pairs.{is_same_pair, compare_pairs, compare_entries, offer_with};
ghost use Rattle.sem_reader.specs.Tells.{Tells, HasSizes, IsTold, IsPlainVpe};
ghost use Rattle.sem_key.specs.ObjectRanges.{object_kind};

use crate::tables::{BYTES, Tables, VPES};
use indexmap::{IndexMap, IndexSet};
use sem_key::{Key, Kind, Object, OutOfMemory};
use sem_msg::{Denies, Kills, Offer, Offers, Seq, Service, Services, Setup, VpeDecl, Vpes0};
use sem_trace::LINK_WINDOW;
use std::alloc::Global;

// Appends the item, if there is one.
fn push_some<T: Drop>(list: &mut Seq<T>, item: Option<T>) -> Result<(), OutOfMemory>
    ensures ok { OnOk result (list.new ≡ list.old ++ option_to_list item) }
{
    match item {
        Some(item) => list.push(item),
        None => Ok(()),
    }
}

// The service of the root at that place, if the root is one.
fn service_with(pe: u8, vpe: u16, number: u16, object: &Object) -> Option<Service>
    requires pe { pe < VPES_SPEC }
    requires vpe { vpe < VPES_SPEC }
    requires number { number < NUMBERS }
    ensures { option_to_list result
        ≡ service_with_spec object.now (record {
          pe = pe;
          vpe = vpe;
          kind = object_kind object.now;
          number = number;
        }) }
{
    match object {
        Object::Serv { name } => Some(Service {
            name: *name,
            key: Key {
                pe,
                vpe,
                kind: Kind::Serv,
                number,
            },
        }),
        _ => None,
    }
}

// Appends the services among the roots of a VPE.
fn push_services(services: &mut Services, declared: &VpeDecl) -> Result<(), OutOfMemory>
    requires { IsPlainVpe declared.now }
    ensures ok { OnOk result (services.new ≡ services.old
        ++ services_from declared.now 0 declared.now.roots) }
{
    for (number, root) in declared.roots.as_slice().iter().enumerate() {
        let service = service_with(declared.pe, declared.vpe, number as u16, &root.object);
        push_some(services, service)?;
    }
    Ok(())
}

// The services among the roots, VPE by VPE.
fn services_among(alloc: Global, vpes: &Vpes0) -> Result<Services, OutOfMemory>
    requires { All IsPlainVpe vpes.now }
    ensures { IfOk result (λ services. services ≡ services_among_spec vpes.now) }
{
    let mut services = Services::new(alloc);
    for declared in vpes.as_slice() {
        push_services(&mut services, declared)?;
    }
    Ok(services)
}

// The first service of that name.
fn named(services: &[Service], name: u8) -> Option<Service>
    ensures { result ≡ named_spec services.now name }
{
    for service in services {
        if service.name == name {
            return Some(*service);
        }
    }
    None
}

// The services by name.
fn services_of(alloc: Global, vpes: &Vpes0) -> Result<Services, OutOfMemory>
    requires { All IsPlainVpe vpes.now }
    ensures { IfOk result (λ services. services ≡ services_of_spec vpes.now) }
{
    let declared = services_among(alloc, vpes)?;
    let mut services = Services::new(alloc);
    for name in 0..BYTES {
        push_some(&mut services, named(declared.as_slice(), name as u8))?;
    }
    Ok(services)
}

// The pairs, ordered by both parts.
fn sorted_pairs(alloc: Global, pairs: &IndexSet<(u16, u16)>) -> Result<Vec<(u16, u16)>, OutOfMemory>
    ensures same { IfOk result (λ sorted. IsPermutation pairs.now.keys sorted.items) }
    ensures rise { IfOk result (λ sorted. IsSorted compare_pairs sorted.items) }
    ensures apart { IsUnique is_same_pair pairs.now }
{
    let mut sorted = Vec::from_slice(alloc, pairs.as_slice())?;
    sorted.sort()?;
    Ok(sorted)
}

// A list of the pairs.
fn denies_from(alloc: Global, pairs: &[(u16, u16)]) -> Result<Denies, OutOfMemory>
    ensures { IfOk result (λ denies. denies ≡ pairs.now) }
{
    let mut denies = Denies::new(alloc);
    for pair in pairs {
        denies.push(*pair)?;
    }
    Ok(denies)
}

// The offers, by name and index.
fn sorted_offers(
    alloc: Global,
    offers: &IndexMap<(u8, u8), u8>,
) -> Result<Vec<((u8, u8), u8)>, OutOfMemory>
    ensures same { IfOk result (λ sorted. IsPermutation offers.now.entries sorted.items) }
    ensures rise { IfOk result (λ sorted. IsSorted compare_entries sorted.items) }
    ensures apart { map.IsUnique is_same_pair offers.now }
{
    let mut sorted = Vec::new(alloc);
    for (place, sel) in offers.iter() {
        sorted.push((*place, *sel))?;
    }
    sorted.sort()?;
    Ok(sorted)
}

fn offers_from(alloc: Global, entries: &[((u8, u8), u8)]) -> Result<Offers, OutOfMemory>
    ensures { IfOk result (λ offers. offers ≡ list_map offer_with entries.now) }
{
    let mut offers = Offers::new(alloc);
    for ((name, index), sel) in entries {
        offers.push(Offer {
            name: *name,
            index: *index,
            sel: *sel,
        })?;
    }
    Ok(offers)
}

impl Tables {
    // The VPE with all that is declared of it.
    #[tactic(auto, unfolding(sem_trace::specs::Earlier::vpe_in))]
    fn vpe(&self, alloc: Global, vpe: u16) -> Result<Option<VpeDecl>, OutOfMemory>
        requires vpe { vpe < VPES_SPEC }
        requires sizes { HasSizes self.now }
        ensures { (version kernels : ℕ) (ds : List DeclarationData) →
            Tells version kernels ds self.now → IfOk result (λ found. found ≡ vpe_in ds vpe) }
    {
        let Some(pe) = self.pes[usize::from(vpe)] else {
            return Ok(None);
        };
        Ok(Some(VpeDecl {
            vpe,
            pe,
            roots: self.roots[usize::from(vpe)].copy(alloc)?,
            calls: self.calls[usize::from(vpe)].copy(alloc)?,
        }))
    }

    // The declared VPEs, by number.
    fn vpes(&self, alloc: Global) -> Result<Vpes0, OutOfMemory>
        requires { HasSizes self.now }
        ensures { (version kernels : ℕ) (ds : List DeclarationData) →
            Tells version kernels ds self.now → IfOk result (λ vpes. vpes ≡ vpes_of ds) }
    {
        let mut vpes = Vpes0::new(alloc);
        for vpe in 0..VPES {
            push_some(&mut vpes, self.vpe(alloc, vpe as u16)?)?;
        }
        Ok(vpes)
    }

    // The offers, by name and index.
    fn offers(&self, alloc: Global) -> Result<Offers, OutOfMemory>
        ensures { (version kernels : ℕ) (ds : List DeclarationData) →
            Tells version kernels ds self.now →
            IfOk result (λ offers. offers ≡ offers_of ds (services_of_spec (vpes_of ds))) }
    {
        let entries = sorted_offers(alloc, &self.offers)?;
        offers_from(alloc, &entries)
    }

    // The denied pairs, by both VPEs.
    fn denies(&self, alloc: Global) -> Result<Denies, OutOfMemory>
        ensures { (version kernels : ℕ) (ds : List DeclarationData) →
            Tells version kernels ds self.now →
            IfOk result (λ denies. denies ≡ denies_of ds (vpes_of ds)) }
    {
        let pairs = sorted_pairs(alloc, &self.denied)?;
        denies_from(alloc, &pairs)
    }

    // The kill of the VPE, if it is killed.
    fn kill(&self, vpe: u16) -> Option<(u16, u64)>
        requires { vpe < VPES_SPEC }
        ensures { (version kernels : ℕ) (ds : List DeclarationData) →
            Tells version kernels ds self.now →
            result ≡ option_map (λ replies. (vpe, replies)) (kill_in ds vpe) }
    {
        let replies = self.kills[usize::from(vpe)]?;
        Some((vpe, replies))
    }

    // The kills of these VPEs, by VPE.
    fn kills_of(&self, alloc: Global, vpes: &Vpes0) -> Result<Kills, OutOfMemory>
        requires { All IsPlainVpe vpes.now }
        ensures { (version kernels : ℕ) (ds : List DeclarationData) →
            Tells version kernels ds self.now →
            IfOk result (λ kills. kills ≡ kills_of ds vpes.now) }
    {
        let mut kills = Kills::new(alloc);
        for declared in vpes.as_slice() {
            push_some(&mut kills, self.kill(declared.vpe))?;
        }
        Ok(kills)
    }

    /// The declared setup.
    pub(crate) fn setup(&self, alloc: Global) -> Result<Setup, OutOfMemory>
        requires sizes { HasSizes self.now }
        requires told { IsTold self.now }
        ensures setup { (version kernels : ℕ) (ds : List DeclarationData) →
            Tells version kernels ds self.now →
            IfOk result (λ setup. setup ≡ setup_of version kernels ds) }
    {
        let vpes = self.vpes(alloc)?;
        let services = services_of(alloc, &vpes)?;
        let offers = self.offers(alloc)?;
        let denies = self.denies(alloc)?;
        let kills = self.kills_of(alloc, &vpes)?;
        Ok(Setup {
            version: self.version,
            window: self.window.unwrap_or(LINK_WINDOW),
            kernels: self.owners.kernels(),
            owners: self.owners,
            vpes,
            services,
            offers,
            denies,
            kills,
        })
    }
}
