// The run of a generated load, each kernel in its own threads, and its summary.
ghost use Rattle.std.specs.Prelude.{◌≡◌, ◌≤◌, ◌*◌, IfOk, length};
ghost use Rattle.sem_msg.specs.Journal.{replies};
ghost use Rattle.sem_machine.specs.Schedules.{IsSchedule, world_after};
ghost use Rattle.sem_audit.specs.Straying.{stray_count};
ghost use Rattle.sem_cli.specs.Summary.{summary};
ghost use Rattle.sem_cli.specs.declared.forms.Command.TheVariants.{Soak};
ghost use Rattle.sem_run.specs.Inputs.{Given as GivenRecord, Asks, IsUntouched};
ghost use Rattle.sem_run.specs.Readings.{AreAfter, IsLoadTold, Responds};
ghost use Rattle.sem_run.specs.Texts.{text_of};

use crate::response::Response;
use crate::runs::{Run, run_to_end};
use crate::text::Text;
use crate::threads::run_in_threads;
use sem_audit::{answered, stray_of};
use sem_cli::{Status, push_summary};
use sem_gen::generate;
use sem_kernel::Kernel;
use sem_key::OutOfMemory;
use sem_msg::{Journal, Setup};
use sem_node::Gate;
use std::alloc::Global;
use std::sync::Wait;
use std::thread::Threads;

/// Runs a generated load in threads, and then what is left of it by the seed. Responds with the
/// summary.
pub fn soak_load<R: Threads + Wait + Sync, G: Gate + Sync>(
    rt: &R,
    alloc: Global,
    seed: u64,
    vpes: u32,
    calls: u32,
    gate: &G,
) -> Response
    requires vpes { (1 ≤ vpes) × (vpes ≤ 128) }
    requires calls { vpes * calls ≤ 20000 }
    ensures { (g : GivenRecord) → Asks g (Soak seed vpes calls) → IsUntouched g
        → Responds g result }
{
    let setup = match generate(alloc, seed, vpes, calls) {
        Ok(setup) => setup,
        Err(_) => return Response::out_of_memory(alloc, Journal::new(alloc)),
    };
    setup.keeps_its_rules();
    let started = run_in_threads(rt, alloc, &setup, gate);
    let Run { journal, kernels } = run_to_end(alloc, &setup, started, seed);
    let calls = u64::from(vpes) * u64::from(calls);
    match kernels {
        Ok(kernels) => tell_load(alloc, &setup, journal, kernels, u64::from(vpes), calls),
        Err(_) => Response::out_of_memory(alloc, journal),
    }
}

// The response that tells of a journal that ends with these kernels.
fn tell_load(
    alloc: Global,
    setup: &Setup,
    journal: Journal,
    kernels: Vec<Kernel>,
    vpes: u64,
    calls: u64,
) -> Response
    requires schedule { IsSchedule setup.now journal.entries }
    requires after { AreAfter setup.now journal.entries kernels.items }
    ensures journal { result.journal ≡ journal }
    ensures told { IsLoadTold setup.now journal.entries vpes calls
        (text_of result.text result.journal.entries) result.status }
{
    match summary_of(alloc, setup, &journal, kernels, vpes, calls) {
        Ok(text) => Response {
            status: Status::Done,
            text: Text::Whole(text),
            journal,
        },
        Err(_) => Response::out_of_memory(alloc, journal),
    }
}

// The summary of a journal that ends with these kernels.
fn summary_of(
    alloc: Global,
    setup: &Setup,
    journal: &Journal,
    kernels: Vec<Kernel>,
    vpes: u64,
    calls: u64,
) -> Result<Vec<u8>, OutOfMemory>
    requires schedule { IsSchedule setup.now journal.now.entries }
    requires after { AreAfter setup.now journal.now.entries kernels.items }
    ensures { IfOk result (λ text. text.items
        ≡ summary vpes calls (length (replies journal.now.entries))
        (stray_count setup.now journal.now.entries
        (world_after setup.now journal.now.entries).sides)) }
{
    let stray = stray_of(alloc, setup, journal, &kernels)?;
    let mut text = Vec::new(alloc);
    push_summary(&mut text, vpes, calls, answered(journal), stray)?;
    Ok(text)
}
