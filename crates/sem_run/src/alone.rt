ghost use Rattle.std.specs.Prelude.{◌≡◌, true, [], Some};
ghost use Rattle.sem_cli.specs.declared.forms.Command.{Command as CommandData};
ghost use Rattle.sem_run.specs.Inputs.{asked_by, input_given, is_alone};
ghost use Rattle.sem_run.specs.Ends.{left};
ghost use Rattle.sem_run.specs.Serves.{Serves};

use crate::responses::respond;
use sem_cli::{Status, command};
use sem_io::{Sink, Source};
use sem_msg::Journal;
use std::alloc::Global;

/// Does what the words ask for: reads the input, writes to the sink, leaves the journal of the run,
/// and never waits. The status tells how it ended.
///
/// The journal must be empty, and the words must be neither `threads SEED` nor `soak SEED VPES
/// CALLS`.
pub fn semper_alone<S: Source, K: Sink>(
    alloc: Global,
    words: &[String],
    input: &mut S,
    out: &mut K,
    journal: &mut Journal,
) -> Status
    requires journal { journal.old.entries ≡ [] }
    requires alone { (c : CommandData) → asked_by words.now ≡ Some c → is_alone c ≡ true }
    ensures { Serves (input_given S.left S.faults (asked_by words.now) input.old input.new)
        (left K.written K.faults result journal.new.entries out.old out.new) }
{
    respond(alloc, command(words), input).leave(out, journal)
}
