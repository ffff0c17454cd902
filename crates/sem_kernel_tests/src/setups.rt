use sem_key::{Key, Kind, Object};
use sem_msg::{Call, Root, Setup};
use sem_reader::read_trace;
use std::alloc::Global;
use std::test::Fail;

// One kernel, and one VPE with memory that it derives from and then revokes.
pub const ONE_VPE: &str = "semper trace 1\nkernels 1\npe 0 0\nvpe 0 0\nroot 0 0 mem 0 4096 7\n\
     call 0 derive 0 1 0 1024 1\ncall 0 revoke 0\nend\n";

// The memory that the VPE has at the start, and the part that it derives from it.

pub const ROOT: Key = Key {
    pe: 0,
    vpe: 0,
    kind: Kind::Mem,
    number: 0,
};

pub const CHILD: Key = Key {
    pe: 0,
    vpe: 0,
    kind: Kind::Mem,
    number: 1,
};

pub const DERIVE: Call = Call::Derive {
    src: 0,
    dst: 1,
    off: 0,
    len: 1024,
    rights: 1,
};

// The setup that the text stands for.
pub fn setup_of(alloc: Global, text: &str) -> Result<Setup, Fail> {
    match read_trace(alloc, text.as_bytes()) {
        Ok(setup) => Ok(setup),
        Err(_) => Err(Fail::from("no trace")),
    }
}

// The version, the window and the number of kernels, as declared and by the table of the PEs.
fn numbers(setup: &Setup) -> [u32; 4] {
    [
        u32::from(setup.version),
        setup.window,
        setup.kernels,
        setup.owners.kernels(),
    ]
}

// How many VPEs, services, offers, denies and kills are declared.
fn lengths(setup: &Setup) -> [usize; 5] {
    [
        setup.vpes.len(),
        setup.services.len(),
        setup.offers.len(),
        setup.denies.len(),
        setup.kills.len(),
    ]
}

#[test]
fn a_copied_setup_declares_the_same(rt: HostRuntime) -> Result<(), Fail> {
    let copy = setup_of(rt.alloc(), ONE_VPE)?.copy(rt.alloc())?;
    assert_eq!(rt; numbers(&copy), [1, 4, 1, 1]);
    assert_eq!(rt; lengths(&copy), [1, 0, 0, 0, 0]);
    let vpe = copy.vpes.get(0).ok_or("no VPE")?;
    assert_eq!(rt; (vpe.vpe, vpe.pe), (0, 0));
    let object = Object::Mem {
        base: 0,
        len: 4096,
        rights: 7,
    };
    assert_eq!(rt; vpe.roots.as_slice(), [Root { sel: 0, object }].as_slice());
    assert_eq!(rt;
        vpe.calls.as_slice(),
        [DERIVE, Call::Revoke { src: 0 }].as_slice()
    );
    Ok(())
}

// Whether the VPE has a declaration and is declared; its PE, and its kernel.
fn said_of_vpe(setup: &Setup, vpe: u16) -> (bool, bool, u8, u32) {
    (
        setup.decl(vpe).is_some(),
        setup.is_declared(vpe),
        setup.pe_of(vpe),
        setup.kernel_of(vpe),
    )
}

// Whether the kernel has a declaration of VPE 0, and whether the VPE is its own.
fn said_of_kernel(setup: &Setup, kernel: u32) -> (bool, bool) {
    (setup.own_decl(kernel, 0).is_some(), setup.is_own(kernel, 0))
}

#[test]
fn what_is_not_declared_is_of_no_kernel_and_on_no_pe(rt: HostRuntime) -> Result<(), Fail> {
    let setup = setup_of(rt.alloc(), ONE_VPE)?;
    assert_eq!(rt; said_of_vpe(&setup, 0), (true, true, 0, 0));
    assert_eq!(rt; said_of_vpe(&setup, 1), (false, false, 128, 1));
    assert_eq!(rt; said_of_kernel(&setup, 0), (true, true));
    assert_eq!(rt; said_of_kernel(&setup, 1), (false, false));
    assert_eq!(rt; (setup.pe_owner(0), setup.pe_owner(1)), (0, 1));
    assert_eq!(rt; setup.owner_of(CHILD), 0);
    Ok(())
}
