// Runs of a setup to their end, and their reports.
ghost use Rattle.std.specs.Prelude.{◌≡◌, ℕ, Option, Some, IfOk, IfErr, OnOk};
ghost use Rattle.sem_machine.specs.Living.{IsComplete};
ghost use Rattle.sem_machine.specs.Schedules.{IsSchedule};
ghost use Rattle.sem_machine.specs.Seeded.{drained};
ghost use Rattle.sem_audit.specs.Reported.{report};
ghost use Rattle.sem_cli.specs.declared.forms.Command.{Command as CommandData};
ghost use Rattle.sem_cli.specs.declared.forms.Command.TheVariants.{Run as RunCommand};
ghost use Rattle.sem_cli.specs.Messages.{refused_line};
ghost use Rattle.sem_kernel.specs.Standing.{StandsAt};
ghost use Rattle.sem_run.specs.Inputs.{input_given, AsksRun, ReadsTrace};
ghost use Rattle.sem_audit.specs.Reported.{IsAuditOf};
ghost use Rattle.sem_run.specs.Readings.{AreAfter, EndsRun, IsOkWith, Responds, TellsRefusal};
ghost use Rattle.sem_run.specs.Texts.{text_of};

use crate::piece::Piece;
use crate::response::Response;
use crate::text::Text;
use sem_audit::audit_of;
use sem_cli::{Status, push_refused};
use sem_fabric::Fabric;
use sem_io::{ReadError, Source, read_all};
use sem_kernel::{Kernel, boot};
use sem_key::OutOfMemory;
use sem_msg::{Audit, Journal, Setup};
use sem_reader::read_trace;
use sem_report::{push_audit, push_head};
use sem_serial::drain;
use sem_trace::{TraceError, TraceFault};
use std::alloc::Global;

/// The most bytes of a trace, or of file commands.
pub const MOST_BYTES: usize = 8_388_608;

/// The kernels of a setup and their fabric, unless memory was refused for them.
pub type Started = Result<(Vec<Kernel>, Fabric), OutOfMemory>;

/// A run of a setup: its journal, and its kernels if it came to its end.
#[derive(Drop)]
pub struct Run {
    pub journal: Journal,
    pub kernels: Result<Vec<Kernel>, OutOfMemory>,
}

/// Runs the trace in the input, on one thread.
pub fn run_trace<S: Source>(alloc: Global, seed: u64, input: &mut S) -> Response
    ensures { Responds
        (input_given S.left S.faults (Some (RunCommand seed)) input.old input.new) result }
{
    match read_setup(alloc, input) {
        Ok(setup) => {
            let started = boot(alloc, &setup, Journal::new(alloc));
            report_run(alloc, &setup, started, seed)
        }
        Err(response) => response,
    }
}

/// The setup in the input, or else the response of the command that needs it.
pub fn read_setup<S: Source>(alloc: Global, input: &mut S) -> Result<Setup, Response>
    ensures reads { IfOk result (λ setup. (asked : Option CommandData)
        → ReadsTrace (input_given S.left S.faults asked input.old input.new) setup) }
    ensures quiet { OnOk result (S.faults input.new ≡ S.faults input.old) }
    ensures refused { IfErr result (λ response. (seed : ℕ) (asked : Option CommandData)
        → AsksRun (input_given S.left S.faults asked input.old input.new) seed
        → Responds (input_given S.left S.faults asked input.old input.new) response) }
{
    let bytes = match read_all(alloc, input, MOST_BYTES) {
        Ok(bytes) => bytes,
        Err(error) => return Err(Response::unread(alloc, error)),
    };
    match read_trace(alloc, &bytes) {
        Ok(setup) => {
            setup.keeps_its_rules();
            Ok(setup)
        }
        Err(TraceError::Refused(fault)) => Err(refuse_trace(alloc, &fault)),
        Err(TraceError::Memory) => Err(Response::out_of_memory(alloc, Journal::new(alloc))),
    }
}

// The response to a text that is no trace.
fn refuse_trace(alloc: Global, fault: &TraceFault) -> Response
    ensures { TellsRefusal (refused_line fault.now) result }
{
    let mut text = Vec::new(alloc);
    match push_refused(&mut text, fault) {
        Ok(()) => Response::told(alloc, Status::TraceRefused, text),
        Err(_) => Response::out_of_memory(alloc, Journal::new(alloc)),
    }
}

/// Runs the setup on to its end, by the seed. Responds with the report of its journal.
pub fn report_run(alloc: Global, setup: &Setup, started: Started, seed: u64) -> Response
    requires { IfOk started (λ s. StandsAt setup.now s.0.items s.1) }
    ensures schedule { IsSchedule setup.now result.journal.entries }
    ensures ends { EndsRun setup.now result.journal.entries
        (text_of result.text result.journal.entries) result.status }
    ensures drained { result.status ≡ Status.Done → IsOkWith
        (λ s. result.journal.entries ≡ drained setup.now s.1.journal seed) started }
{
    let Run { journal, kernels } = run_to_end(alloc, setup, started, seed);
    let told = match kernels {
        Ok(kernels) => report_of(alloc, setup, &journal, kernels),
        Err(error) => Err(error),
    };
    match told {
        Ok(text) => Response {
            status: Status::Done,
            text,
            journal,
        },
        Err(_) => Response::out_of_memory(alloc, journal),
    }
}

/// Runs on by the seed until no event is enabled.
pub fn run_to_end(alloc: Global, setup: &Setup, started: Started, seed: u64) -> Run
    requires { IfOk started (λ s. StandsAt setup.now s.0.items s.1) }
    ensures schedule { IsSchedule setup.now result.journal.entries }
    ensures complete { OnOk result.kernels (IsComplete setup.now result.journal.entries) }
    ensures kernels { IfOk result.kernels
        (λ kernels. AreAfter setup.now result.journal.entries kernels.items) }
    ensures drained { OnOk result.kernels (IsOkWith
        (λ s. result.journal.entries ≡ drained setup.now s.1.journal seed) started) }
{
    let (mut kernels, mut fabric) = match started {
        Ok(started) => started,
        Err(error) => {
            return Run {
                journal: Journal::new(alloc),
                kernels: Err(error),
            };
        }
    };
    let ran = drain(alloc, setup, &mut kernels, &mut fabric, seed);
    Run {
        journal: fabric.into_journal(),
        kernels: match ran {
            Ok(()) => Ok(kernels),
            Err(error) => Err(error),
        },
    }
}

// The text of the report of a journal that ends with these kernels.
fn report_of(
    alloc: Global,
    setup: &Setup,
    journal: &Journal,
    kernels: Vec<Kernel>,
) -> Result<Text, OutOfMemory>
    requires { AreAfter setup.now journal.now.entries kernels.items }
    ensures { IfOk result
        (λ text. text_of text journal.now.entries ≡ report setup.now journal.now.entries) }
{
    let audit = audit_of_run(alloc, setup, journal, kernels)?;
    let mut head = Vec::new(alloc);
    push_head(&mut head, setup, journal)?;
    let mut tail = Vec::new(alloc);
    push_audit(&mut tail, &audit)?;
    Ok(Text::Report {
        head: Piece::new(head)?,
        tail,
    })
}

// The audit of a journal that ends with these kernels. They are dropped here, so that their memory
// is free before the report is made.
fn audit_of_run(
    alloc: Global,
    setup: &Setup,
    journal: &Journal,
    kernels: Vec<Kernel>,
) -> Result<Audit, OutOfMemory>
    requires { AreAfter setup.now journal.now.entries kernels.items }
    ensures { IfOk result (IsAuditOf setup.now journal.now.entries) }
{
    audit_of(alloc, setup, journal, &kernels)
}
