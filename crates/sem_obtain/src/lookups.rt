ghost use Rattle.std.specs.Prelude.{◌≡◌, true, option_copied, find, IfSome};
ghost use Rattle.std.specs.Option.{option_and_then, option_map};
ghost use Rattle.sem_key.specs.KeyName.{key_eq};
ghost use Rattle.sem_key.specs.Capability.{capability_of};
ghost use Rattle.sem_key.specs.declared.key.Kind.TheVariants.{Serv as ServKind};
ghost use Rattle.sem_msg.specs.Lookups.{is_declared, offer_named as offer_named_spec};
ghost use Rattle.sem_msg.specs.Lookups.{offered as offered_spec};
ghost use Rattle.sem_msg.specs.Lookups.{service_named as service_named_spec};
ghost use Rattle.sem_vpe.specs.VpeTable.{IsOurs};
ghost use Rattle.sem_machine.specs.Sides.{no_side, own};
ghost use Rattle.sem_machine.specs.Calls.{session_service as session_service_spec};
ghost use Rattle.sem_machine.specs.Upcalls.{source as source_spec};
ghost use Rattle.sem_machine.specs.Stores.{owning};

use sem_caps::Caps;
use sem_key::{Cap, Key, Object, same_key};
use sem_msg::{Service, Setup, Target};
use sem_vpe::Vpes;

fn service_named(setup: &Setup, name: u8) -> Option<&Service>
    ensures { option_copied result ≡ service_named_spec setup.now name }
{
    setup
        .services
        .as_slice()
        .iter()
        .find(|service| service.name == name)
}

// The key of the service of that name. The VPE of that key is declared.
pub fn service_key(setup: &Setup, name: u8) -> Option<Key>
    ensures key { result ≡ option_map (λ s. s.key) (service_named_spec setup.now name) }
    ensures declared { IfSome result (λ k. (is_declared setup.now k.vpe ≡ true)
        × (k.kind ≡ ServKind)) }
{
    // Shows the proof what a setup keeps.
    let _ = &setup.services;
    let service = service_named(setup, name)?;
    Some(service.key)
}

fn service_of(setup: &Setup, key: Key) -> Option<&Service>
    ensures { option_copied result ≡ find (λ s. key_eq s.key key) setup.now.services }
{
    setup
        .services
        .as_slice()
        .iter()
        .find(|service| same_key(&service.key, &key))
}

// The selector that a service of that name offers under an index.
fn offer_named(setup: &Setup, index: u8, name: u8) -> Option<u8>
    ensures { result ≡ offer_named_spec setup.now index name }
{
    let mut offers = setup.offers.as_slice().iter();
    let offer = offers.find(|offer| offer.name == name && offer.index == index)?;
    Some(offer.sel)
}

// The selector that the service of that key offers under an index.
fn offered(setup: &Setup, key: Key, index: u8) -> Option<u8>
    ensures { result ≡ offered_spec setup.now key index }
{
    let service = service_of(setup, key)?;
    offer_named(setup, index, service.name)
}

// The service of the session at a selector of the VPE.
pub fn session_service(caps: &Caps, vpes: &Vpes, vpe: u16, sel: u8) -> Option<Key>
    requires { IsOurs vpes.now vpe }
    ensures { result ≡ option_and_then (λ c. session_service_spec c.object)
        (own (owning caps.now.caps vpes.now.rows no_side) vpe sel) }
{
    match caps.get(vpes.held_key(vpe, sel)?)?.object {
        Object::Sess { service, .. } => Some(service),
        _ => None,
    }
}

/// What the VPE is asked for: the capability at its selector, its service, or what its service
/// offers. None if there is no such capability. The VPE must be of this kernel.
pub fn source<'a>(
    setup: &Setup,
    vpe: u16,
    target: &Target,
    caps: &'a Caps,
    vpes: &Vpes,
) -> Option<&'a Cap>
    requires { IsOurs vpes.now vpe }
    ensures { option_map capability_of (option_copied result)
        ≡ source_spec setup.now (owning caps.now.caps vpes.now.rows no_side) vpe target.now }
{
    match target {
        Target::Sel { sel, .. } => caps.get(vpes.held_key(vpe, *sel)?),
        Target::Serv { service } => caps.get(*service),
        Target::Offer { service, index } => {
            let sel = offered(setup, *service, *index)?;
            caps.get(vpes.held_key(vpe, sel)?)
        }
    }
}
