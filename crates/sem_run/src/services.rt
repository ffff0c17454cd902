// Runs of the setups that file commands compile to.
ghost use Rattle.std.specs.Prelude.{◌≡◌, ℕ, Option, Some, IfOk, IfErr, OnOk};
ghost use Rattle.sem_cli.specs.Messages.{files_refused_line};
ghost use Rattle.sem_cli.specs.declared.forms.Command.{Command as CommandData};
ghost use Rattle.sem_cli.specs.declared.forms.Command.TheVariants.{Files as FilesCommand};
ghost use Rattle.sem_run.specs.Inputs.{input_given, Asks};
ghost use Rattle.sem_run.specs.Readings.{ReadsService, Responds, TellsRefusal};

use crate::response::Response;
use crate::runs::{MOST_BYTES, report_run};
use sem_cli::{Status, push_files_refused};
use sem_files::read_files;
use sem_fs::compile;
use sem_io::{Source, read_all};
use sem_kernel::boot;
use sem_msg::{Journal, Setup};
use sem_trace::{TraceError, TraceFault};
use std::alloc::Global;

/// Runs the setup that the file commands in the input compile to, on one thread.
pub fn run_files<S: Source>(alloc: Global, seed: u64, input: &mut S) -> Response
    ensures { Responds (input_given S.left S.faults (Some (FilesCommand seed)) input.old input.new)
        result }
{
    match read_service(alloc, input) {
        Ok(setup) => {
            let started = boot(alloc, &setup, Journal::new(alloc));
            report_run(alloc, &setup, started, seed)
        }
        Err(response) => response,
    }
}

// The setup that the file commands in the input compile to, or else the response of the command.
fn read_service<S: Source>(alloc: Global, input: &mut S) -> Result<Setup, Response>
    ensures reads { IfOk result (λ setup. (asked : Option CommandData)
        → ReadsService (input_given S.left S.faults asked input.old input.new) setup) }
    ensures quiet { OnOk result (S.faults input.new ≡ S.faults input.old) }
    ensures refused { IfErr result (λ response. (seed : ℕ) (asked : Option CommandData)
        → Asks (input_given S.left S.faults asked input.old input.new) (FilesCommand seed)
        → Responds (input_given S.left S.faults asked input.old input.new) response) }
{
    let bytes = match read_all(alloc, input, MOST_BYTES) {
        Ok(bytes) => bytes,
        Err(error) => return Err(Response::unread(alloc, error)),
    };
    let files = match read_files(alloc, &bytes) {
        Ok(files) => files,
        Err(TraceError::Refused(fault)) => return Err(refuse_files(alloc, &fault)),
        Err(TraceError::Memory) => {
            return Err(Response::out_of_memory(alloc, Journal::new(alloc)));
        }
    };
    match compile(alloc, &files) {
        Ok(setup) => {
            // Shows the proof what file commands keep.
            let _ = &files.kernels;
            setup.keeps_its_rules();
            Ok(setup)
        }
        Err(_) => Err(Response::out_of_memory(alloc, Journal::new(alloc))),
    }
}

// The response to a text that is no text of file commands.
fn refuse_files(alloc: Global, fault: &TraceFault) -> Response
    ensures { TellsRefusal (files_refused_line fault.now) result }
{
    let mut text = Vec::new(alloc);
    match push_files_refused(&mut text, fault) {
        Ok(()) => Response::told(alloc, Status::TraceRefused, text),
        Err(_) => Response::out_of_memory(alloc, Journal::new(alloc)),
    }
}
