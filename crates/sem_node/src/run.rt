// All kernels of a setup in threads, and the kernels afterwards.
ghost use Rattle.std.specs.Prelude.{◌≡◌, ◌<◌, ◌++◌, map, length, vec_len, All, IfOk};
ghost use Rattle.std.specs.Prelude.{OnOk, None};
ghost use Rattle.std.specs.Option.{option_to_list};
ghost use Rattle.std.specs.List.{AllZip, range_with_len};
ghost use Rattle.std.specs.List.Sorted.{IsPermutation, IsNonDecreasingBy};
ghost use Rattle.sem_msg.specs.Setup.{IsSetup};
ghost use Rattle.sem_machine.specs.Schedules.{IsSchedule, world_after};
ghost use Rattle.sem_fabric.specs.Fabrics.{new_fabric};
ghost use Rattle.sem_kernel.specs.Worlds.{world_of, AreKernelsOf, booted as booted_spec};
ghost use Rattle.sem_kernel.specs.Owning.{own_rows};
ghost use Rattle.sem_parts.specs.SidesAfter.{AreSidesAfter};
ghost use Rattle.sem_node.specs.Running.{HasRun};
ghost use Rattle.sem_node.specs.Ending.{HaveRun};
ghost use Rattle.sem_node.specs.Own.{own_kill, own_kills};

use crate::bell::Bell;
use crate::cell::{Caller, KernelCell};
use crate::desk::{Desk, Due};
use crate::gate::Gate;
use crate::node::Node;
use crate::shared::Run;
use sem_fabric::Fabric;
use sem_kernel::Kernel;
use sem_key::OutOfMemory;
use sem_msg::Setup;
use sem_turn::{Opened, Pass, Passes, RunName};
use std::alloc::Global;
use std::marker::{Brand, PhantomData};
use std::sync::atomic::AtomicBool;
use std::sync::{Mutex, Wait};
use std::thread;
use std::thread::Threads;

// The VPEs of the kernel, with what their threads share.
fn callers_of<N: RunName>(alloc: Global, kernel: &Kernel) -> Result<Vec<Caller<N>>, OutOfMemory>
    requires valid { IsSetup N.setup }
    requires setup { kernel.now.setup ≡ N.setup }
    ensures { IfOk result (λ callers.
        map (λ c. record { vpe = c.vpe; calls = c.calls }) callers.items
        ≡ own_rows kernel.now.setup kernel.now.id) }
{
    let mut callers = Vec::new(alloc);
    for own in kernel.own_vpes() {
        callers.push(Caller {
            kernel: kernel.id(),
            vpe: own.vpe,
            calls: own.calls,
            of: PhantomData,
            bell: Bell::new(),
            due: AtomicBool::new(false),
        })?;
    }
    Ok(callers)
}

// The kills of VPEs of the kernel.
fn kills_of(alloc: Global, setup: &Setup, id: u32) -> Result<Vec<Due>, OutOfMemory>
    ensures { IfOk result (λ kills.
        map (λ d. (d.vpe, d.number)) kills.items ≡ own_kills setup.now id) }
{
    let mut kills = Vec::new(alloc);
    for kill in setup.kills.as_slice() {
        push_kill(&mut kills, setup, *kill, id)?;
    }
    Ok(kills)
}

// Appends the kill, if its VPE is one of the kernel.
fn push_kill(
    kills: &mut Vec<Due>,
    setup: &Setup,
    kill: (u16, u64),
    id: u32,
) -> Result<(), OutOfMemory>
    ensures { OnOk result (map (λ d. (d.vpe, d.number)) kills.new.items
        ≡ map (λ d. (d.vpe, d.number)) kills.old.items
        ++ option_to_list (own_kill setup.now id kill)) }
{
    if setup.kernel_of(kill.0) == id {
        kills.push(Due::new(kill.0, kill.1))?;
    }
    Ok(())
}

// A desk for the dispatcher of each kernel.
fn desks_of(alloc: Global, setup: &Setup) -> Result<Vec<Desk>, OutOfMemory> {
    let mut desks = Vec::new(alloc);
    for id in 0..setup.kernels {
        desks.push(Desk::new(kills_of(alloc, setup, id)?))?;
    }
    Ok(desks)
}

// The kernel with its pass, for its threads.
fn node_of<N: RunName>(alloc: Global, kernel: Kernel, pass: Pass<N>) -> Result<Node<N>, OutOfMemory>
    requires run { HasRun N.setup kernel pass }
    requires free { pass.taken ≡ None }
    ensures { IfOk result (λ node.
        map (λ c. record { vpe = c.vpe; calls = c.calls }) node.callers.items
        ≡ own_rows kernel.setup kernel.id) }
{
    let id = kernel.id();
    let callers = callers_of(alloc, &kernel)?;
    Ok(Node {
        id,
        cell: Mutex::new(KernelCell::new(kernel, pass)),
        callers,
    })
}

// All kernels with their passes.
fn nodes_of<N: RunName>(
    alloc: Global,
    mut kernels: Vec<Kernel>,
    mut passes: Passes<N>,
) -> Result<Vec<Node<N>>, OutOfMemory>
    requires run { AllZip (HasRun N.setup) kernels.items passes }
    requires free { All (λ p. p.taken ≡ None) passes }
    ensures { IfOk result (λ nodes. vec_len nodes ≡ vec_len kernels) }
{
    let mut nodes = Vec::new(alloc);
    while let Some(kernel) = kernels.pop() {
        let Some(pass) = passes.pop() else {
            unreachable!()
        };
        nodes.push(node_of(alloc, kernel, pass)?)?;
    }
    Ok(nodes)
}

// Takes the kernels and their passes out of their locks.
fn taken_out<N: RunName>(
    alloc: Global,
    mut nodes: Vec<Node<N>>,
) -> Result<(Vec<Kernel>, Passes<N>), OutOfMemory>
    ensures run { IfOk result (λ r. AllZip (HasRun N.setup) r.0.items r.1) }
    ensures free { IfOk result (λ r. All (λ p. p.taken ≡ None) r.1) }
    ensures count { IfOk result (λ r. length r.1 ≡ vec_len nodes) }
{
    let mut kernels = Vec::new(alloc);
    let mut passes = Passes::new(alloc);
    while let Some(node) = nodes.pop() {
        let Node {
            id: _,
            cell,
            callers: _,
        } = node;
        let (kernel, pass) = cell.into_inner().into_parts();
        kernels.push(kernel)?;
        passes.push(pass)?;
    }
    Ok((kernels, passes))
}

// A lock tells only what its type says, so the kernels come out in no known order.
fn put_in_order(kernels: &mut Vec<Kernel>)
    ensures same { IsPermutation kernels.old.items kernels.new.items }
    ensures order { IsNonDecreasingBy (λ k. k.id) kernels.new.items }
{
    kernels.sort_unstable_by_key(|kernel| kernel.id());
}

// Stops the run, and rings for all threads.
fn halt<N: RunName>(run: &Run<N>, nodes: &[Node<N>]) {
    run.stop();
    for node in nodes {
        node.wake();
    }
}

// A dispatcher for each kernel, and a thread for each VPE. All have ended when this returns.
fn run_all<N: RunName + Send + Sync, R: Threads + Wait + Sync, G: Gate + Sync>(
    rt: &R,
    run: &Run<N>,
    nodes: &[Node<N>],
    gate: &G,
) {
    thread::scope(thread::scope_env(), rt, |scope| {
        for node in nodes {
            if scope.spawn(move || node.dispatch(rt, run, gate)).is_err() {
                halt(run, nodes);
            }
            for caller in &node.callers {
                let made = scope.spawn(move || node.call(rt, run, gate, caller));
                if made.is_err() {
                    halt(run, nodes);
                }
            }
        }
    });
}

// The run under a name that stands for the table.
fn run_named<N: RunName + Send + Sync, R: Threads + Wait + Sync, G: Gate + Sync>(
    rt: &R,
    alloc: Global,
    setup: &Setup,
    opened: Opened,
    kernels: Vec<Kernel>,
    gate: &G,
) -> Result<(Vec<Kernel>, Fabric), OutOfMemory>
    requires named { (opened.table ≡ N.table) × (opened.setup ≡ N.setup) }
    requires setup { opened.setup ≡ setup.now }
    requires booted { kernels.items
        ≡ map (booted_spec setup.now) (range_with_len 0 setup.now.kernels) }
    ensures { IfOk result (λ r. HaveRun setup.now r.0.items r.1) }
{
    setup.keeps_its_rules();
    let (turn, first) = opened.named::<N>();
    let passes = turn.split(alloc, first, setup.kernels)?;
    let nodes = nodes_of(alloc, kernels, passes)?;
    let desks = desks_of(alloc, setup)?;
    let run = Run::new(turn, desks, setup.vpes.len() as u64);
    run_all(rt, &run, nodes.as_slice(), gate);
    let (mut kernels, passes) = taken_out(alloc, nodes)?;
    let fabric = run.into_turn().close(passes);
    put_in_order(&mut kernels);
    Ok((kernels, fabric))
}

/// Runs each kernel in its own threads: one that does everything but the calls, and one for each
/// VPE, which makes the VPE's calls. It may wait. If memory is refused, the kernels and the fabric
/// are dropped; otherwise they come back, with no thread left. They may stand anywhere in the run.
///
/// The kernels must be those of the setup at the start, in order, and the fabric a new one of it.
pub fn run_threads<R: Threads + Wait + Sync, G: Gate + Sync>(
    rt: &R,
    alloc: Global,
    setup: &Setup,
    kernels: Vec<Kernel>,
    fabric: Fabric,
    gate: &G,
) -> Result<(Vec<Kernel>, Fabric), OutOfMemory>
    requires kernels { kernels.items
        ≡ map (booted_spec setup.now) (range_with_len 0 setup.now.kernels) }
    requires fabric { fabric ≡ new_fabric setup.now }
    ensures together { IfOk result (λ r. AreKernelsOf setup.now r.0.items r.1) }
    ensures schedule { IfOk result (λ r. IsSchedule setup.now r.1.journal) }
    ensures world { IfOk result (λ r. world_of r.0.items r.1 ≡ world_after setup.now r.1.journal) }
    ensures parts { IfOk result (λ r. AreSidesAfter setup.now (map (λ k. k.side) r.0.items) r.1) }
{
    let opened = Opened::new(alloc, setup, fabric)?;
    run_named::<Brand, R, G>(rt, alloc, setup, opened, kernels, gate)
}
