ghost use Rattle.std.specs.Prelude.{◌≡◌, ◌++◌, ◌<◌, ◌==◌, ◌||◌, [], ◌∷◌, None, All, if◌then◌else◌};
ghost use Rattle.std.specs.Prelude.{IfOk, OnOk};
ghost use Rattle.sem_key.specs.declared.limits.TheConstants.{PES as PES_SPEC};
ghost use Rattle.sem_key.specs.MembershipTable.{owner_at};
ghost use Rattle.sem_files.specs.Files.{is_client};
ghost use Rattle.sem_files.specs.Compiled.{SERVER as SERVER_SPEC, client as client_spec};
ghost use Rattle.sem_files.specs.Compiled.{service_key};
ghost use Rattle.sem_files.specs.Compiled.{compiled};
ghost use Rattle.sem_fs.specs.Extents.{IsExtent, server_with};
ghost use Rattle.sem_fs.specs.Clients.{clients_below};
ghost use Rattle.sem_fs.specs.Owning.{Owns, OwnsBelow};

use crate::calls::client_calls;
use crate::lookups::has_client;
use crate::servers::{SERVER, all_extents, offers, server};
use sem_files::Files;
use sem_key::{Key, Kind, Membership, OutOfMemory, PES};
use sem_msg::{Denies, Kills, Roots, Service, Services, Setup, VpeDecl, Vpes0};
use std::alloc::Global;

// A client holds nothing at the start, and makes its calls.
fn client(alloc: Global, files: &Files, client: u8) -> Result<VpeDecl, OutOfMemory>
    ensures { IfOk result (λ vpe. vpe ≡ client_spec files.now client) }
{
    let vpe = u16::from(client);
    Ok(VpeDecl {
        vpe,
        pe: client,
        roots: Roots::new(alloc),
        calls: client_calls(alloc, files, vpe)?,
    })
}

// Appends the client of that number, if it is declared.
fn push_client(
    alloc: Global,
    vpes: &mut Vpes0,
    files: &Files,
    number: u8,
) -> Result<(), OutOfMemory>
    ensures { OnOk result (vpes.new ≡ vpes.old
        ++ (if is_client files.now number then client_spec files.now number ∷ [] else [])) }
{
    if !has_client(files, u16::from(number)) {
        return Ok(());
    }
    vpes.push(client(alloc, files, number)?)
}

// The server with these extents, and the clients.
fn all_vpes(alloc: Global, files: &Files, extents: &[u8]) -> Result<Vpes0, OutOfMemory>
    requires { All IsExtent extents.now }
    ensures { IfOk result (λ vpes. vpes
        ≡ server_with extents.now ∷ clients_below files.now 63) }
{
    let mut vpes = Vpes0::new(alloc);
    vpes.push(server(alloc, extents)?)?;
    for before in 0..63 {
        push_client(alloc, &mut vpes, files, before + 1)?;
    }
    Ok(vpes)
}

// The service that the server serves.
fn services(alloc: Global) -> Result<Services, OutOfMemory>
    ensures { IfOk result (λ services. services ≡ record { name = 0; key = service_key } ∷ []) }
{
    let mut services = Services::new(alloc);
    services.push(Service {
        name: 0,
        key: Key {
            pe: SERVER,
            vpe: u16::from(SERVER),
            kind: Kind::Serv,
            number: 0,
        },
    })?;
    Ok(services)
}

// Whether a VPE is on the PE.
fn is_used(files: &Files, pe: u8) -> bool
    ensures { result ≡ ((pe == SERVER_SPEC) || is_client files.now pe) }
{
    pe == SERVER || has_client(files, u16::from(pe))
}

// Gives the PE to its kernel, if a VPE is on it.
fn set_owner(owners: &mut Membership, files: &Files, pe: u8)
    requires pe { pe < PES_SPEC }
    requires kernels { owners.old.kernels ≡ files.now.kernels }
    requires free { owner_at owners.old pe ≡ None }
    ensures { Owns files.now pe owners.old owners.new }
{
    let kernel = u32::from(pe) % files.kernels;
    if !is_used(files, pe) {
        return;
    }
    let _ = owners.set(pe, kernel);
}

// Which kernel owns which PE.
fn owners(files: &Files) -> Membership
    ensures { OwnsBelow files.now PES_SPEC result }
{
    let mut owners = Membership::empty(files.kernels);
    for pe in 0..PES {
        set_owner(&mut owners, files, pe as u8);
    }
    owners
}

/// The setup of the file service: a server that offers the extents, and the calls of the clients.
pub fn compile(alloc: Global, files: &Files) -> Result<Setup, OutOfMemory>
    ensures { IfOk result (λ setup. setup ≡ compiled files.now) }
{
    let kernels = files.kernels;
    let extents = all_extents(alloc, files)?;
    let vpes = all_vpes(alloc, files, extents.as_slice())?;
    let services = services(alloc)?;
    let offers = offers(alloc, extents.as_slice())?;
    Ok(Setup {
        version: 1,
        window: 4,
        kernels,
        owners: owners(files),
        vpes,
        services,
        offers,
        denies: Denies::new(alloc),
        kills: Kills::new(alloc),
    })
}
