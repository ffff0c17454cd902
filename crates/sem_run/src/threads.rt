// Runs of a setup with each kernel in its own threads.
ghost use Rattle.std.specs.Prelude.{Some, IfOk};
ghost use Rattle.sem_cli.specs.declared.forms.Command.TheVariants.{Threads as InThreads};
ghost use Rattle.sem_kernel.specs.Standing.{StandsAt};
ghost use Rattle.sem_run.specs.Inputs.{input_given};
ghost use Rattle.sem_run.specs.Readings.{Responds};

use crate::response::Response;
use crate::runs::{Started, read_setup, report_run};
use sem_fabric::Fabric;
use sem_io::Source;
use sem_kernel::boot_kernels;
use sem_msg::{Journal, Setup};
use sem_node::{Gate, run_threads};
use std::alloc::Global;
use std::sync::Wait;
use std::thread::Threads;

/// Runs the trace in the input with each kernel in its own threads, and then what is left of it by
/// the seed.
pub fn thread_trace<R: Threads + Wait + Sync, S: Source, G: Gate + Sync>(
    rt: &R,
    alloc: Global,
    seed: u64,
    input: &mut S,
    gate: &G,
) -> Response
    ensures { Responds
        (input_given S.left S.faults (Some (InThreads seed)) input.old input.new) result }
{
    match read_setup(alloc, input) {
        Ok(setup) => {
            let started = run_in_threads(rt, alloc, &setup, gate);
            report_run(alloc, &setup, started, seed)
        }
        Err(response) => response,
    }
}

/// The kernels of the setup and their fabric, as their threads leave them.
pub fn run_in_threads<R: Threads + Wait + Sync, G: Gate + Sync>(
    rt: &R,
    alloc: Global,
    setup: &Setup,
    gate: &G,
) -> Started
    ensures { IfOk result (λ r. StandsAt setup.now r.0.items r.1) }
{
    setup.keeps_its_rules();
    let kernels = boot_kernels(alloc, setup)?;
    let fabric = Fabric::new(alloc, setup, Journal::new(alloc))?;
    run_threads(rt, alloc, setup, kernels, fabric, gate)
}
