ghost use Rattle.std.specs.Prelude.{◌≡◌, ◌≢◌, ◌<◌, ◌≤◌, IfOk};
ghost use Rattle.sem_msg.specs.Message.{Fits};

use sem_fabric::Fabric;
use sem_key::{Key, Kind, Membership, OutOfMemory};
use sem_msg::{
    Act, Denies, Detail, Entry, Event, Journal, Kills, Message, Offers, Reply, Services, Setup,
    Vpes0,
};
use std::alloc::Global;
use std::process::Abort;
use std::test::Fail;

// A setup of version 2 without PEs.
fn setup(alloc: Global, kernels: u32, window: u32) -> Result<Setup, OutOfMemory>
    requires kernels { (1 ≤ kernels) × (kernels ≤ 32) }
    requires window { (1 ≤ window) × (window ≤ 32) }
    ensures { IfOk result (λ setup. setup.kernels ≡ kernels) }
{
    Ok(Setup {
        version: 2,
        window,
        kernels,
        owners: Membership::empty(kernels),
        vpes: Vpes0::new(alloc),
        services: Services::new(alloc),
        offers: Offers::new(alloc),
        denies: Denies::new(alloc),
        kills: Kills::new(alloc),
    })
}

// The fabric of that many kernels at the start of a run.
fn fabric(alloc: Global, kernels: u32, window: u32) -> Result<Fabric, OutOfMemory>
    requires kernels { (1 ≤ kernels) × (kernels ≤ 32) }
    requires window { (1 ≤ window) × (window ≤ 32) }
    ensures { IfOk result (λ fabric. fabric.kernels ≡ kernels) }
{
    let setup = setup(alloc, kernels, window)?;
    Fabric::new(alloc, &setup, Journal::new(alloc))
}

// A message known by its number.
fn message(number: u32) -> Message
    ensures { Fits result }
{
    Message::RevokeReq {
        key: Key {
            pe: 127,
            vpe: 127,
            kind: Kind::Sess,
            number: 4095,
        },
        job: number,
    }
}

// Flushes the message of that number, and returns whether there was room.
fn flush(fabric: &mut Fabric, from: u32, to: u32, number: u32) -> bool
    requires kernels { (from < fabric.old.kernels) × (to < fabric.old.kernels) }
    requires other { from ≢ to }
    ensures { fabric.new.kernels ≡ fabric.old.kernels }
{
    match fabric.flush(from, to, message(number)) {
        Ok(()) => true,
        Err(back) => back != message(number),
    }
}

// Fetches a message, and returns its number.
fn fetch(fabric: &mut Fabric, to: u32, from: u32) -> Option<u32>
    requires kernels { (from < fabric.old.kernels) × (to < fabric.old.kernels) }
    requires other { from ≢ to }
    ensures { fabric.new.kernels ≡ fabric.old.kernels }
{
    match fabric.fetch(to, from) {
        Some(Message::RevokeReq { job, .. }) => Some(job),
        _ => None,
    }
}

// The entry in which that kernel kills a VPE.
fn killed(kernel: u32, vpe: u16, reply: Option<Reply>) -> Entry
    ensures { result.event.kernel ≡ kernel }
{
    Entry {
        event: Event {
            kernel,
            act: Act::Kill { vpe },
        },
        detail: Detail::Nothing,
        grant: None,
        cut: None,
        reply,
    }
}

#[test]
fn a_link_holds_as_many_messages_as_the_window(rt: HostRuntime) -> Result<(), Fail> {
    let mut fabric = fabric(rt.alloc(), 2, 3)?;
    for number in 0..3u32 {
        assert!(rt; !fabric.full(1, 0), "with {number}");
        assert!(rt; flush(&mut fabric, 1, 0, number));
    }
    assert!(rt; fabric.full(1, 0));
    assert!(rt; !fabric.full(0, 1));
    assert!(rt; !flush(&mut fabric, 1, 0, 9));
    assert_eq!(rt; fetch(&mut fabric, 0, 1), Some(0));
    assert!(rt; flush(&mut fabric, 1, 0, 9));
    assert!(rt; fabric.full(1, 0));
    Ok(())
}

#[test]
fn a_link_goes_round_its_ring(rt: HostRuntime) -> Result<(), Fail> {
    let mut fabric = fabric(rt.alloc(), 32, 4)?;
    assert!(rt; flush(&mut fabric, 31, 30, 0));
    for number in 1..40u32 {
        assert!(rt; flush(&mut fabric, 31, 30, number));
        assert_eq!(rt; fetch(&mut fabric, 30, 31), Some(number - 1));
    }
    assert_eq!(rt; fetch(&mut fabric, 30, 31), Some(39));
    assert_eq!(rt; fetch(&mut fabric, 30, 31), None);
    Ok(())
}

#[test]
fn an_entry_takes_the_place_of_its_kernel(rt: HostRuntime) -> Result<(), Fail> {
    let mut fabric = fabric(rt.alloc(), 2, 1)?;
    assert_eq!(rt; (fabric.journal().len(), fabric.replies()), (0, 0));
    assert_eq!(rt; fabric.peek(0, 1), None);
    fabric.reserve(1)?;
    fabric.enter(killed(1, 7, Some(Reply { vpe: 7, code: 0 })));
    fabric.reserve(0)?;
    fabric.reserve(0)?;
    fabric.enter(killed(0, 9, None));
    assert_eq!(rt; (fabric.journal().len(), fabric.replies()), (2, 1));
    let journal = fabric.into_journal();
    assert_eq!(rt;
        journal.get(0),
        Some(killed(1, 7, Some(Reply { vpe: 7, code: 0 })))
    );
    assert_eq!(rt; journal.get(1), Some(killed(0, 9, None)));
    Ok(())
}
