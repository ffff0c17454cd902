// What the server holds and offers.
ghost use Rattle.std.specs.Prelude.{◌≡◌, ◌<◌, ◌≤◌, ◌++◌, ◌∷◌, map, All, IfOk, OnOk};
ghost use Rattle.sem_files.specs.Compiled.{below, extent_number, extents, service_root};
ghost use Rattle.sem_files.specs.Compiled.{root_of_extent as root_of_extent_spec};
ghost use Rattle.sem_files.specs.Compiled.{offer_of_extent as offer_of_extent_spec};
ghost use Rattle.sem_fs.specs.Extents.{IsExtent, server_with};

use crate::lookups::extents_of;
use crate::places::number_of_extent;
use sem_files::{EXTENT, Files};
use sem_key::{Object, OutOfMemory, RIGHTS};
use sem_msg::{Calls, Offer, Offers, Root, Roots, Seq, VpeDecl};
use std::alloc::Global;

// The VPE that serves files, and its PE.
pub const SERVER: u8 = 0;

// The most files of a text.
const FILES: u8 = 16;

// The numbers of extents.
type Extents = Seq<u8>;

// Appends the numbers of the extents of a file.
fn push_extents(numbers: &mut Extents, file: u8, extents: u8) -> Result<(), OutOfMemory>
    requires file { file ≤ 15 }
    requires extents { extents ≤ 4 }
    ensures { OnOk result (numbers.new ≡ numbers.old ++ map (extent_number file) (below extents)) }
{
    for extent in 0..extents {
        let number = number_of_extent(file, extent);
        numbers.push(number)?;
    }
    Ok(())
}

// The numbers of all extents, in rising order.
pub fn all_extents(alloc: Global, files: &Files) -> Result<Extents, OutOfMemory>
    ensures { IfOk result (λ numbers. numbers ≡ extents files.now) }
{
    let mut numbers = Extents::new(alloc);
    for file in 0..FILES {
        push_extents(&mut numbers, file, extents_of(files, file))?;
    }
    Ok(numbers)
}

// The root of the server for an extent.
fn root_of_extent(extent: u8) -> Root
    requires { IsExtent extent }
    ensures { result ≡ root_of_extent_spec extent }
{
    Root {
        sel: 1 + extent,
        object: Object::Mem {
            base: EXTENT * u32::from(extent),
            len: EXTENT,
            rights: RIGHTS,
        },
    }
}

fn offer_of_extent(extent: u8) -> Offer
    requires { IsExtent extent }
    ensures { result ≡ offer_of_extent_spec extent }
{
    Offer {
        name: 0,
        index: extent,
        sel: 1 + extent,
    }
}

// The service, and the extents.
fn roots(alloc: Global, extents: &[u8]) -> Result<Roots, OutOfMemory>
    requires { All IsExtent extents.now }
    ensures { IfOk result (λ roots. roots ≡ service_root ∷ map root_of_extent_spec extents.now) }
{
    let mut roots = Roots::new(alloc);
    roots.push(Root {
        sel: 0,
        object: Object::Serv { name: 0 },
    })?;
    for extent in extents {
        roots.push(root_of_extent(*extent))?;
    }
    Ok(roots)
}

pub fn offers(alloc: Global, extents: &[u8]) -> Result<Offers, OutOfMemory>
    requires { All IsExtent extents.now }
    ensures { IfOk result (λ offers. offers ≡ map offer_of_extent_spec extents.now) }
{
    let mut offers = Offers::new(alloc);
    for extent in extents {
        offers.push(offer_of_extent(*extent))?;
    }
    Ok(offers)
}

// The server holds the service and these extents.
pub fn server(alloc: Global, extents: &[u8]) -> Result<VpeDecl, OutOfMemory>
    requires { All IsExtent extents.now }
    ensures { IfOk result (λ vpe. vpe ≡ server_with extents.now) }
{
    Ok(VpeDecl {
        vpe: u16::from(SERVER),
        pe: SERVER,
        roots: roots(alloc, extents)?,
        calls: Calls::new(alloc),
    })
}
