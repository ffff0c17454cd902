ghost use Rattle.std.specs.Prelude.{◌≡◌, ◌≤◌, IfOk, None};
ghost use Rattle.std.specs.Thread.{IsSync};
ghost use Rattle.sem_msg.specs.declared.event.Act.TheVariants.{Handle};

use sem_fabric::{Fabric, entries_keep_agreement};
use sem_key::{Membership, OutOfMemory};
use sem_msg::{Act, Denies, Detail, Entry, Event, Journal, Kills, Offers, Services, Setup, Vpes0};
use sem_turn::{Opened, Pass, Passes, RunName, Turn};
use std::alloc::Global;
use std::hint;
use std::marker::Brand;
use std::sync::Wait;
use std::test::Fail;
use std::thread::{Threads, join};

// A setup of version 2 without PEs.
fn setup(alloc: Global, kernels: u32) -> Result<Setup, OutOfMemory>
    requires kernels { (1 ≤ kernels) × (kernels ≤ 32) }
    ensures { IfOk result (λ setup. setup.kernels ≡ kernels) }
{
    Ok(Setup {
        version: 2,
        window: 4,
        kernels,
        owners: Membership::empty(kernels),
        vpes: Vpes0::new(alloc),
        services: Services::new(alloc),
        offers: Offers::new(alloc),
        denies: Denies::new(alloc),
        kills: Kills::new(alloc),
    })
}

// The table of a run of that many kernels, at its start.
fn opened(alloc: Global, kernels: u32) -> Result<Opened, OutOfMemory>
    requires kernels { (1 ≤ kernels) × (kernels ≤ 32) }
    ensures { IfOk result (λ opened. opened.setup.kernels ≡ kernels) }
{
    let setup = setup(alloc, kernels)?;
    let fabric = Fabric::new(alloc, &setup, Journal::new(alloc))?;
    Opened::new(alloc, &setup, fabric)
}

// The entry of a kernel that handled a message.
fn handled(kernel: u32) -> Entry
    ensures { result.event ≡ record { kernel = kernel; act = Handle } }
{
    Entry {
        event: Event {
            kernel,
            act: Act::Handle,
        },
        detail: Detail::Nothing,
        grant: None,
        cut: None,
        reply: None,
    }
}

// Does nothing for that many turns of a loop.
fn idle(turns: u32) {
    for _ in 0..turns {
        hint::spin_loop();
    }
}

// Makes an entry of the pass's kernel: its place in one turn, and the entry itself in another,
// which is held for a while.
fn enter<N: RunName, W: Wait>(
    rt: &W,
    turn: &Turn<N>,
    pass: &mut Pass<N>,
    held: u32,
) -> Result<(), OutOfMemory>
    requires { pass.old.taken ≡ None }
    ensures kernel { pass.new.kernel ≡ pass.old.kernel }
    ensures free { pass.new.taken ≡ None }
{
    let kernel = pass.kernel();
    let mut fabric = turn.take(rt, pass);
    let reserved = fabric.reserve(kernel);
    turn.give_back(pass, fabric);
    reserved?;
    let mut fabric = turn.take(rt, pass);
    entries_keep_agreement();
    idle(held);
    fabric.enter(handled(kernel));
    turn.give_back(pass, fabric);
    Ok(())
}

// Makes that many entries of the pass's kernel.
fn enter_all<N: RunName, W: Wait>(
    rt: &W,
    turn: &Turn<N>,
    mut pass: Pass<N>,
    count: u32,
    held: u32,
) -> Result<Pass<N>, OutOfMemory>
    requires { pass.taken ≡ None }
    ensures { IfOk result (λ pass. pass.taken ≡ None) }
{
    for _ in 0..count {
        enter(rt, turn, &mut pass, held)?;
    }
    Ok(pass)
}

// Two kernels make entries side by side; the turn is held for a while for each of them. Returns the
// journal of both.
fn entered<N: RunName + Send + Sync, R: Threads + Wait + Sync>(
    rt: &R,
    alloc: Global,
    opened: Opened,
    held: u32,
) -> Result<Journal, OutOfMemory>
    requires named { (opened.table ≡ N.table) × (opened.setup ≡ N.setup) }
    requires kernels { opened.setup.kernels ≡ 2 }
{
    let (turn, first) = opened.named::<N>();
    let mut passes = turn.split(alloc, first, 2)?;
    let Some(one) = passes.pop() else {
        unreachable!()
    };
    let Some(zero) = passes.pop() else {
        unreachable!()
    };
    let (zero, one) = join(
        rt,
        || -> Result<Pass<N>, OutOfMemory>
            requires { IsSync R.row × (zero.taken ≡ None) }
            ensures { IfOk result (λ pass. pass.taken ≡ None) }
        { enter_all(rt, &turn, zero, 300, held) },
        || -> Result<Pass<N>, OutOfMemory>
            requires { IsSync R.row × (one.taken ≡ None) }
            ensures { IfOk result (λ pass. pass.taken ≡ None) }
        { enter_all(rt, &turn, one, 500, held) },
    );
    let mut back = Passes::new(alloc);
    back.push(zero?)?;
    back.push(one?)?;
    Ok(turn.close(back).into_journal())
}

#[test]
fn two_kernels_make_entries_side_by_side(rt: HostRuntime) -> Result<(), Fail> {
    // A thread waits for a turn that is held for long: it sleeps, and is woken.
    for held in [0, 20_000] {
        let opened = opened(rt.alloc(), 2)?;
        let journal = entered::<Brand, HostRuntime>(&rt, rt.alloc(), opened, held)?;
        assert_eq!(rt; journal.len(), 800);
        let mut first = 0u32;
        for entry in journal.as_slice() {
            if entry.event.kernel == 0 {
                first = first.saturating_add(1);
            }
        }
        assert_eq!(rt; first, 300);
    }
    Ok(())
}
