ghost use Rattle.std.specs.Prelude.{◌≡◌, ◌≤◌, [], IfOk, None, replicate};
ghost use Rattle.sem_key.specs.declared.limits.TheConstants.{PES};
ghost use Rattle.sem_key.specs.MembershipTable.{IsMembership, with_owner};
ghost use Rattle.sem_vpe.specs.VpeTable.{IsOurs};

use crate::{Ask, Numbers, Occupied, Slot, Vpes};
use sem_key::{Key, Kind, Membership, Object, OutOfMemory, Place, VPES};
use sem_msg::{
    Calls, Code, Denies, Kills, Offers, Root, Seq, Service, Services, Setup, Target, VpeDecl, Vpes0,
};
use std::alloc::Global;
use std::ops::Range;
use std::process::Abort;
use std::test::Fail;

fn listed<T: Copy>(alloc: Global, items: &[T]) -> Result<Seq<T>, OutOfMemory>
    ensures { IfOk result (λ list. list ≡ items.now) }
{
    let mut list = Seq::new(alloc);
    for item in items {
        list.push(*item)?;
    }
    Ok(list)
}

// A key of VPE 2.
pub fn key(kind: Kind, number: u16) -> Key
    requires { number ≤ 4095 }
    ensures { result ≡ record { pe = 3; vpe = 2; kind = kind; number = number } }
{
    Key {
        pe: 3,
        vpe: 2,
        kind,
        number,
    }
}

// An ask for the capability at a selector of another VPE.
pub fn question(sel: u8) -> Ask {
    Ask::Obtain {
        place: Place {
            pe: 5,
            vpe: 4,
            number: 9,
        },
        target: Target::Sel { vpe: 2, sel },
    }
}

// An offer at a selector.
pub fn offer(sel: u8) -> Ask {
    Ask::Delegate {
        parent: key(Kind::Mem, 0),
        object: Object::Mem {
            base: 4096,
            len: 512,
            rights: 3,
        },
        sel,
    }
}

// PEs 3 and 9 belong to kernel 1, and PE 5 to kernel 0.
fn owned_pes() -> Result<Membership, Fail>
    ensures owners { IfOk result (λ m. m ≡ with_owner (with_owner (with_owner
        (record { kernels = 2; owners = replicate PES None }) 3 1) 5 0) 9 1) }
    ensures table { IfOk result IsMembership }
{
    let mut owners = Membership::empty(2);
    owners.set(3, 1)?;
    owners.set(5, 0)?;
    owners.set(9, 1)?;
    Ok(owners)
}

fn root(sel: u8, object: Object) -> Root
    ensures { result ≡ record { sel = sel; object = object } }
{
    Root { sel, object }
}

// A VPE that makes no calls.
fn declared(alloc: Global, vpe: u16, pe: u8, roots: &[Root]) -> Result<VpeDecl, OutOfMemory>
    ensures { IfOk result (λ d. d ≡ record { vpe = vpe; pe = pe; roots = roots.now; calls = [] }) }
{
    Ok(VpeDecl {
        vpe,
        pe,
        roots: listed(alloc, roots)?,
        calls: Calls::new(alloc),
    })
}

// Kernel 1 has VPE 2, with three roots, and VPE 127, which holds nothing. Kernel 0 has VPE 4.
pub fn two_kernels(alloc: Global) -> Result<Setup, Fail> {
    let owners = owned_pes()?;
    let memory = Object::Mem {
        base: 4096,
        len: 512,
        rights: 3,
    };
    let roots = [
        root(7, memory),
        root(200, Object::Recv { slots: 8 }),
        root(0, Object::Serv { name: 9 }),
    ];
    let mut vpes = Vpes0::new(alloc);
    vpes.push(declared(alloc, 2, 3, &roots)?)?;
    vpes.push(declared(alloc, 4, 5, &[root(1, memory)])?)?;
    vpes.push(declared(alloc, 127, 9, &[])?)?;
    let mut services = Services::new(alloc);
    services.push(Service {
        name: 9,
        key: key(Kind::Serv, 2),
    })?;
    Ok(Setup {
        version: 2,
        window: 4,
        kernels: 2,
        owners,
        vpes,
        services,
        offers: Offers::new(alloc),
        denies: Denies::new(alloc),
        kills: Kills::new(alloc),
    })
}

// The VPEs of a kernel of that setup.
pub fn at_start(alloc: Global, kernel: u32) -> Result<Vpes, Fail> {
    let setup = two_kernels(alloc)?;
    Ok(Vpes::new(alloc, &setup, kernel)?)
}

// The calls on a VPE of the kernel.

pub fn alive(rt: &impl Abort, vpes: &Vpes, vpe: u16) -> bool {
    assert!(rt; vpes.is_ours(vpe));
    vpes.alive(vpe)
}

pub fn selector(rt: &impl Abort, vpes: &Vpes, vpe: u16, sel: u8) -> Slot {
    assert!(rt; vpes.is_ours(vpe));
    vpes.selector(vpe, sel)
}

pub fn held_key(rt: &impl Abort, vpes: &Vpes, vpe: u16, sel: u8) -> Option<Key> {
    assert!(rt; vpes.is_ours(vpe));
    vpes.held_key(vpe, sel)
}

pub fn next_call(rt: &impl Abort, vpes: &Vpes, vpe: u16) -> u32 {
    assert!(rt; vpes.is_ours(vpe));
    vpes.next_call(vpe)
}

pub fn next_number(rt: &impl Abort, vpes: &Vpes, vpe: u16) -> u16 {
    assert!(rt; vpes.is_ours(vpe));
    vpes.next_number(vpe)
}

pub fn asks(rt: &impl Abort, vpes: &Vpes, vpe: u16) -> usize {
    assert!(rt; vpes.is_ours(vpe));
    vpes.asks(vpe)
}

pub fn front_ask(rt: &impl Abort, vpes: &Vpes, vpe: u16) -> Option<Ask> {
    assert!(rt; vpes.is_ours(vpe));
    vpes.front_ask(vpe)
}

pub fn promise(rt: &impl Abort, vpes: &mut Vpes, vpe: u16, sel: u8) -> Result<(), Occupied> {
    assert!(rt; vpes.is_ours(vpe));
    vpes.promise(vpe, sel)
}

pub fn fill(rt: &impl Abort, vpes: &mut Vpes, vpe: u16, sel: u8, key: Key) {
    assert!(rt; vpes.is_ours(vpe));
    vpes.fill(vpe, sel, key);
}

pub fn release(rt: &impl Abort, vpes: &mut Vpes, vpe: u16, sel: u8) {
    assert!(rt; vpes.is_ours(vpe));
    vpes.release(vpe, sel);
}

pub fn draw(rt: &impl Abort, vpes: &mut Vpes, vpe: u16) -> Result<u16, Numbers> {
    assert!(rt; vpes.is_ours(vpe));
    vpes.draw(vpe)
}

pub fn ask(rt: &impl Abort, vpes: &mut Vpes, vpe: u16, question: Ask) {
    assert!(rt; vpes.is_ours(vpe));
    vpes.ask(vpe, question);
}

pub fn next_ask(rt: &impl Abort, vpes: &mut Vpes, vpe: u16) -> Option<Ask> {
    assert!(rt; vpes.is_ours(vpe));
    vpes.next_ask(vpe)
}

pub fn advance(rt: &impl Abort, vpes: &mut Vpes, vpe: u16) {
    assert!(rt; vpes.is_ours(vpe));
    assert!(rt; vpes.next_call(vpe) < u32::MAX);
    vpes.advance(vpe);
}

pub fn end(rt: &impl Abort, vpes: &mut Vpes, vpe: u16) {
    assert!(rt; vpes.is_ours(vpe));
    vpes.end(vpe);
}

// Asks about that many selectors from the first on, all asked.
fn ask_all(rt: &impl Abort, vpes: &mut Vpes, sels: Range<u8>) {
    for sel in sels {
        ask(rt, vpes, 2, question(sel));
    }
}

// The oldest asks are these, and are taken out.
fn take_all(rt: &impl Abort, vpes: &mut Vpes, sels: Range<u8>) {
    for sel in sels {
        assert_eq!(rt; front_ask(rt, vpes, 2), Some(question(sel)));
        assert_eq!(rt; next_ask(rt, vpes, 2), Some(question(sel)));
    }
}

#[test]
fn the_vpes_of_a_kernel_start_with_their_roots(rt: HostRuntime) -> Result<(), Fail> {
    let mut vpes = at_start(rt.alloc(), 1)?;
    for vpe in 0..VPES {
        assert_eq!(rt; vpes.is_ours(vpe), vpe == 2 || vpe == 127, "VPE {vpe}");
    }
    for vpe in [2, 127] {
        assert!(rt; alive(&rt, &vpes, vpe));
        assert_eq!(rt; next_call(&rt, &vpes, vpe), 0);
        assert_eq!(rt; asks(&rt, &vpes, vpe), 0);
        assert_eq!(rt; front_ask(&rt, &vpes, vpe), None);
    }
    for sel in 0..=255 {
        let held = match sel {
            7 => Slot::Held(key(Kind::Mem, 0)),
            200 => Slot::Held(key(Kind::Recv, 1)),
            0 => Slot::Held(key(Kind::Serv, 2)),
            _ => Slot::Free,
        };
        assert_eq!(rt; selector(&rt, &vpes, 2, sel), held, "selector {sel}");
        assert_eq!(rt;
            selector(&rt, &vpes, 127, sel),
            Slot::Free,
            "selector {sel}"
        );
    }
    assert_eq!(rt; next_number(&rt, &vpes, 2), 3);
    assert_eq!(rt; next_number(&rt, &vpes, 127), 0);
    assert_eq!(rt; draw(&rt, &mut vpes, 2), Ok(3));
    assert_eq!(rt; next_number(&rt, &vpes, 2), 4);
    Ok(())
}

#[test]
fn each_kernel_has_its_own_vpes(rt: HostRuntime) -> Result<(), Fail> {
    let vpes = at_start(rt.alloc(), 0)?;
    let none = at_start(rt.alloc(), 2)?;
    for vpe in 0..VPES {
        assert_eq!(rt; vpes.is_ours(vpe), vpe == 4, "VPE {vpe}");
        assert!(rt; !none.is_ours(vpe), "VPE {vpe}");
    }
    Ok(())
}

#[test]
fn a_selector_is_promised_filled_and_released(rt: HostRuntime) -> Result<(), Fail> {
    let mut vpes = at_start(rt.alloc(), 1)?;
    assert_eq!(rt; promise(&rt, &mut vpes, 2, 7), Err(Occupied), "it is held");
    assert_eq!(rt; promise(&rt, &mut vpes, 2, 8), Ok(()));
    assert_eq!(rt; selector(&rt, &vpes, 2, 8), Slot::Promised);
    assert_eq!(rt; held_key(&rt, &vpes, 2, 8), None);
    assert_eq!(rt;
        promise(&rt, &mut vpes, 2, 8),
        Err(Occupied),
        "it is promised"
    );
    fill(&rt, &mut vpes, 2, 8, key(Kind::Send, 3));
    assert_eq!(rt; selector(&rt, &vpes, 2, 8), Slot::Held(key(Kind::Send, 3)));
    assert_eq!(rt; held_key(&rt, &vpes, 2, 8), Some(key(Kind::Send, 3)));
    release(&rt, &mut vpes, 2, 8);
    assert_eq!(rt; selector(&rt, &vpes, 2, 8), Slot::Free);
    assert_eq!(rt; selector(&rt, &vpes, 2, 7), Slot::Held(key(Kind::Mem, 0)));
    assert_eq!(rt; selector(&rt, &vpes, 127, 8), Slot::Free);
    Ok(())
}

#[test]
fn numbers_run_out_after_4096(rt: HostRuntime) -> Result<(), Fail> {
    let mut vpes = at_start(rt.alloc(), 1)?;
    for number in 3..4096 {
        assert_eq!(rt; draw(&rt, &mut vpes, 2), Ok(number));
    }
    assert_eq!(rt; draw(&rt, &mut vpes, 2), Err(Numbers));
    assert_eq!(rt; draw(&rt, &mut vpes, 2), Err(Numbers));
    assert_eq!(rt; draw(&rt, &mut vpes, 127), Ok(0));
    Ok(())
}

// A promised selector, with a number drawn for it.
fn taken(vpes: &mut Vpes, vpe: u16, sel: u8) -> Result<u16, Code>
    requires { IsOurs vpes.old vpe }
{
    vpes.promise(vpe, sel)?;
    Ok(vpes.draw(vpe)?)
}

#[test]
fn faults_are_told_by_their_codes(rt: HostRuntime) -> Result<(), Fail> {
    let mut vpes = at_start(rt.alloc(), 1)?;
    assert!(rt; vpes.is_ours(2));
    assert_eq!(rt; taken(&mut vpes, 2, 7), Err(Code::Occupied));
    assert_eq!(rt; Code::from(Numbers), Code::Numbers);
    Ok(())
}

#[test]
fn a_hundred_and_twenty_eight_asks_wait_in_their_order(rt: HostRuntime) -> Result<(), Fail> {
    let mut vpes = at_start(rt.alloc(), 1)?;
    ask_all(&rt, &mut vpes, 0..128);
    assert_eq!(rt; asks(&rt, &vpes, 2), 128);
    ask(&rt, &mut vpes, 2, question(200));
    assert_eq!(rt; asks(&rt, &vpes, 2), 128, "there is no room for it");
    take_all(&rt, &mut vpes, 0..40);
    // These wrap round the end of the queue.
    ask_all(&rt, &mut vpes, 128..168);
    assert_eq!(rt; asks(&rt, &vpes, 2), 128);
    assert_eq!(rt; asks(&rt, &vpes, 127), 0);
    take_all(&rt, &mut vpes, 40..168);
    assert_eq!(rt; asks(&rt, &vpes, 2), 0);
    assert_eq!(rt; next_ask(&rt, &mut vpes, 2), None);
    Ok(())
}

#[test]
fn a_dead_vpe_keeps_all_but_its_life(rt: HostRuntime) -> Result<(), Fail> {
    let mut vpes = at_start(rt.alloc(), 1)?;
    ask(&rt, &mut vpes, 2, offer(5));
    advance(&rt, &mut vpes, 2);
    advance(&rt, &mut vpes, 2);
    end(&rt, &mut vpes, 2);
    assert!(rt; !alive(&rt, &vpes, 2) && alive(&rt, &vpes, 127));
    assert_eq!(rt; next_call(&rt, &vpes, 2), 2);
    assert_eq!(rt; next_call(&rt, &vpes, 127), 0);
    assert_eq!(rt; front_ask(&rt, &vpes, 2), Some(offer(5)));
    assert_eq!(rt;
        selector(&rt, &vpes, 2, 200),
        Slot::Held(key(Kind::Recv, 1))
    );
    Ok(())
}

#[test]
fn after_want_of_memory_the_vpes_can_be_made_anew(rt: HostRuntime) -> Result<(), Fail> {
    let setup = two_kernels(rt.alloc())?;
    // With `rt try --test --fail-alloc N` and N from 5 to 14, memory is refused here at first.
    let first = Vpes::new(rt.alloc(), &setup, 1);
    let mut vpes = match first {
        Ok(vpes) => vpes,
        Err(OutOfMemory) => Vpes::new(rt.alloc(), &setup, 1)?,
    };
    assert_eq!(rt; selector(&rt, &vpes, 2, 7), Slot::Held(key(Kind::Mem, 0)));
    assert_eq!(rt; draw(&rt, &mut vpes, 2), Ok(3));
    assert_eq!(rt; selector(&rt, &vpes, 127, 7), Slot::Free);
    Ok(())
}
