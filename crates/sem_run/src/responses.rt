// What the program does about words that ask for something.
ghost use Rattle.std.specs.Prelude.{◌≡◌, true, Some, None};
ghost use Rattle.sem_cli.specs.declared.forms.Command.{Command as CommandData};
ghost use Rattle.sem_run.specs.Inputs.{Given as GivenRecord, IsUntouched, input_given, is_alone};
ghost use Rattle.sem_run.specs.Readings.{IsAsked, Responds};

use crate::answers::answer;
use crate::generates::generate_trace;
use crate::response::Response;
use crate::runs::run_trace;
use crate::services::run_files;
use crate::soaks::soak_load;
use crate::threads::thread_trace;
use sem_cli::{Command, Status, usage};
use sem_io::Source;
use sem_msg::Journal;
use sem_node::Gate;
use std::alloc::Global;
use std::sync::Wait;
use std::thread::Threads;

/// What the program does, in threads if the words ask for them.
pub fn respond_to<R: Threads + Wait + Sync, S: Source, G: Gate + Sync>(
    rt: &R,
    alloc: Global,
    asked: Option<Command>,
    input: &mut S,
    gate: &G,
) -> Response
    requires { IsAsked asked }
    ensures { Responds (input_given S.left S.faults asked input.old input.new) result }
{
    match asked {
        Some(Command::Threads { seed }) => thread_trace(rt, alloc, seed, input, gate),
        Some(Command::Soak { seed, vpes, calls }) => soak_load(rt, alloc, seed, vpes, calls, gate),
        alone => respond(alloc, alone, input),
    }
}

/// What one thread does with words that it serves.
pub fn respond<S: Source>(alloc: Global, asked: Option<Command>, input: &mut S) -> Response
    requires asked { IsAsked asked }
    requires alone { (c : CommandData) → asked ≡ Some c → is_alone c ≡ true }
    ensures { Responds (input_given S.left S.faults asked input.old input.new) result }
{
    match asked {
        Some(Command::Run { seed }) => run_trace(alloc, seed, input),
        Some(Command::Files { seed }) => run_files(alloc, seed, input),
        Some(Command::Ask { question }) => answer(alloc, question, input),
        Some(Command::Generate { seed, vpes, calls }) => generate_trace(alloc, seed, vpes, calls),
        Some(Command::Threads { .. }) => tell_usage(alloc),
        Some(Command::Soak { .. }) => tell_usage(alloc),
        None => tell_usage(alloc),
    }
}

// The response to words that one thread does not serve.
fn tell_usage(alloc: Global) -> Response
    ensures { (g : GivenRecord) → g.asked ≡ None → IsUntouched g → Responds g result }
{
    let mut text = Vec::new(alloc);
    match text.extend_from_slice(usage()) {
        Ok(()) => Response::told(alloc, Status::Usage, text),
        Err(_) => Response::out_of_memory(alloc, Journal::new(alloc)),
    }
}
