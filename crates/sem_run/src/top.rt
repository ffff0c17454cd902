ghost use Rattle.std.specs.Prelude.{◌≡◌, []};
ghost use Rattle.sem_run.specs.Inputs.{asked_by, input_given};
ghost use Rattle.sem_run.specs.Ends.{left};
ghost use Rattle.sem_run.specs.Serves.{Serves};

use crate::responses::respond_to;
use sem_cli::{Status, command};
use sem_io::{Sink, Source};
use sem_msg::Journal;
use sem_node::Gate;
use std::alloc::Global;
use std::sync::Wait;
use std::thread::Threads;

/// Does what the words ask for: reads the input, writes to the sink, leaves the journal of the run.
/// The status tells how it ended. `threads SEED` and `soak SEED VPES CALLS` may wait, and each step
/// of a kernel asks the gate first. One thread does everything else, as `semper_alone`.
///
/// The journal must be empty.
pub fn semper<R: Threads + Wait + Sync, S: Source, K: Sink, G: Gate + Sync>(
    rt: &R,
    alloc: Global,
    words: &[String],
    input: &mut S,
    out: &mut K,
    gate: &G,
    journal: &mut Journal,
) -> Status
    requires { journal.old.entries ≡ [] }
    ensures { Serves (input_given S.left S.faults (asked_by words.now) input.old input.new)
        (left K.written K.faults result journal.new.entries out.old out.new) }
{
    respond_to(rt, alloc, command(words), input, gate).leave(out, journal)
}
