ghost use Rattle.std.specs.Prelude.{◌≡◌, IfOk};
ghost use Rattle.sem_msg.specs.Message.{Fits};

use crate::setups::setup_of;
use sem_kernel::{Kernel, StepError, World};
use sem_key::{Key, Kind, Object};
use sem_msg::{Act, Call, Detail, Entry, Event, Message, Reply};
use std::alloc::Global;
use std::test::Fail;

// Two kernels. VPE 3 of kernel 0 obtains the memory of VPE 4 of kernel 1.
const TWO_KERNELS: &str = "semper trace 2\nkernels 2\nwindow 4\npe 5 0\npe 6 1\nvpe 3 5\nvpe 4 6\n\
     root 4 7 mem 4096 512 3\ncall 3 obtain 30 4 7\nend\n";

// The memory, and the child made from it.

const MEMORY: Key = Key {
    pe: 6,
    vpe: 4,
    kind: Kind::Mem,
    number: 0,
};

const OBTAINED: Key = Key {
    pe: 5,
    vpe: 3,
    kind: Kind::Mem,
    number: 0,
};

// The answer of kernel 1.
fn answer() -> Message
    ensures { Fits result }
{
    Message::ObtainOk {
        parent: MEMORY,
        key: OBTAINED,
        object: Object::Mem {
            base: 4096,
            len: 512,
            rights: 3,
        },
    }
}

// Kernel 0 of the two at the start.
fn booted(alloc: Global) -> Result<Kernel, Fail>
    ensures { IfOk result (λ kernel. kernel.setup.kernels ≡ 2) }
{
    let setup = setup_of(alloc, TWO_KERNELS)?;
    if setup.kernels != 2 {
        return Err(Fail::new("there are two kernels"));
    }
    Ok(Kernel::boot(alloc, &setup, 0)?)
}

// Lets the VPE of kernel 0 make its call.
fn called(kernel: &mut Kernel) -> Result<Entry, Fail>
    ensures { kernel.new.setup ≡ kernel.old.setup }
{
    let act = Act::Call { vpe: 3 };
    if !kernel.enabled(act, 0) {
        return Err(Fail::new("it is not enabled"));
    }
    kernel.room(act)?;
    Ok(kernel.step(act, None))
}

// Lets the kernel take that message of kernel 1 out of the link.
fn fetched(kernel: &mut Kernel, message: Message) -> Result<Entry, Fail>
    requires { Fits message }
    ensures { kernel.new.setup ≡ kernel.old.setup }
{
    let act = Act::Fetch { from: 1 };
    if !kernel.enabled(act, 0) {
        return Err(Fail::new("it is not enabled"));
    }
    kernel.room(act)?;
    Ok(kernel.step(act, Some(message)))
}

// The world of the trace at the start.
fn world(alloc: Global, text: &str) -> Result<World, Fail> {
    let setup = setup_of(alloc, text)?;
    Ok(World::boot(alloc, &setup)?)
}

// Lets the event happen, if it is enabled, and returns its entry.
fn entered(world: &mut World, event: Event) -> Result<Entry, StepError> {
    world.step(event)
}

// Lets the event happen, and returns whether it was enabled.
fn happens(world: &mut World, event: Event) -> bool {
    world.is_enabled(event) && entered(world, event).is_ok()
}

// Whether the event is not enabled, and so does not happen.
fn is_refused(world: &mut World, event: Event) -> bool {
    matches!(world.step(event), Err(StepError::NotEnabled))
}

// An event of kernel 0, and one of kernel 1.

fn near(act: Act) -> Event {
    Event { kernel: 0, act }
}

fn far(act: Act) -> Event {
    Event { kernel: 1, act }
}

#[test]
fn a_call_to_another_kernel_waits(rt: HostRuntime) -> Result<(), Fail> {
    let mut kernel = booted(rt.alloc())?;
    assert!(rt; kernel.id() == 0 && kernel.front(1).is_none());
    let call = Act::Call { vpe: 3 };
    let entry = called(&mut kernel)?;
    assert!(rt; entry.event == near(call) && entry.reply.is_none());
    assert!(rt; kernel.front(1).is_some() && kernel.parked(3).is_some());
    assert!(rt; !kernel.enabled(call, 0));
    Ok(())
}

#[test]
fn an_answer_is_taken_out_of_the_link_into_the_inbox(rt: HostRuntime) -> Result<(), Fail> {
    let mut kernel = booted(rt.alloc())?;
    let fetch = Act::Fetch { from: 1 };
    assert!(rt; !kernel.is_handling());
    let entry = fetched(&mut kernel, answer())?;
    assert!(rt; entry.event == near(fetch) && entry.reply.is_none());
    assert!(rt; kernel.is_handling() && !kernel.enabled(fetch, 0));
    assert!(rt; kernel.capability_count() == 0 && kernel.held(OBTAINED).is_none());
    Ok(())
}

#[test]
fn two_kernels_do_an_obtain_over_their_fabric(rt: HostRuntime) -> Result<(), Fail> {
    let mut world = world(rt.alloc(), TWO_KERNELS)?;
    for event in [
        near(Act::Call { vpe: 3 }),
        near(Act::Flush { to: 1 }),
        far(Act::Fetch { from: 0 }),
        far(Act::Handle),
        far(Act::Upcall { vpe: 4 }),
        far(Act::Flush { to: 0 }),
        near(Act::Fetch { from: 1 }),
        near(Act::Handle),
    ] {
        assert!(rt; happens(&mut world, event));
    }
    let resume = near(Act::Resume { vpe: 3 });
    let wanted = Entry {
        event: resume,
        detail: Detail::Nothing,
        grant: None,
        cut: None,
        reply: Some(Reply { vpe: 3, code: 0 }),
    };
    assert_eq!(rt; entered(&mut world, resume), Ok(wanted));
    assert!(rt; world.is_alive(3) && !world.is_alive(5) && world.kernels().len() == 2);
    Ok(())
}

#[test]
fn an_event_that_is_not_enabled_does_not_happen(rt: HostRuntime) -> Result<(), Fail> {
    let mut world = world(rt.alloc(), TWO_KERNELS)?;
    let handle = Event {
        kernel: 2,
        act: Act::Handle,
    };
    assert!(rt; !world.is_enabled(handle), "there is no such kernel");
    assert!(rt; is_refused(&mut world, handle));
    assert!(rt; is_refused(&mut world, near(Act::Fetch { from: 1 })));
    let mut enabled = Vec::new(rt.alloc());
    world.enabled_events(rt.alloc(), &mut enabled)?;
    assert_eq!(rt; enabled.as_slice(), [near(Act::Call { vpe: 3 })].as_slice());
    Ok(())
}

// A VPE derives and revokes, in turn, as often as it has numbers, and then derives twice more.
fn all_numbers(alloc: Global) -> Result<String, Fail> {
    let mut text = String::new(alloc);
    text.push_str("semper trace 2\nkernels 1\nwindow 4\npe 0 0\nvpe 0 0\nroot 0 0 mem 0 4096 7\n")?;
    for _ in 0..4095 {
        text.push_str("call 0 derive 0 1 0 1 1\ncall 0 revoke 1\n")?;
    }
    text.push_str("call 0 derive 0 0 0 1 1\ncall 0 derive 0 1 0 1 1\nend\n")?;
    Ok(text)
}

#[test]
fn a_vpe_draws_no_more_numbers_than_there_are(rt: HostRuntime) -> Result<(), Fail> {
    let text = all_numbers(rt.alloc())?;
    let mut world = world(rt.alloc(), text.as_str())?;
    let call = near(Act::Call { vpe: 0 });
    for _ in 0..4095 {
        assert!(rt; happens(&mut world, call) && happens(&mut world, call));
        assert!(rt; happens(&mut world, near(Act::Resume { vpe: 0 })));
    }
    // A taken selector is refused before the lack of numbers.
    for (index, dst, code) in [(8190, 0, 6), (8191, 1, 7)] {
        let wanted = Entry {
            event: call,
            detail: Detail::Called {
                index,
                call: Call::Derive {
                    src: 0,
                    dst,
                    off: 0,
                    len: 1,
                    rights: 1,
                },
            },
            grant: None,
            cut: None,
            reply: Some(Reply { vpe: 0, code }),
        };
        assert_eq!(rt; entered(&mut world, call), Ok(wanted));
    }
    Ok(())
}
