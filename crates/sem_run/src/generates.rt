// Generated traces.
ghost use Rattle.std.specs.Prelude.{◌≡◌, ◌≤◌, ◌*◌, IfOk};
ghost use Rattle.sem_trace.specs.TraceText.{canonical};
ghost use Rattle.sem_gen.specs.Generated.{generated};
ghost use Rattle.sem_cli.specs.declared.forms.Command.TheVariants.{Generate};
ghost use Rattle.sem_run.specs.Inputs.{Given as GivenRecord, Asks, IsUntouched};
ghost use Rattle.sem_run.specs.Readings.{Responds};

use crate::response::Response;
use sem_cli::Status;
use sem_gen::generate;
use sem_key::OutOfMemory;
use sem_msg::Journal;
use sem_trace::push_trace;
use std::alloc::Global;

/// Responds with the trace that the seed generates.
pub fn generate_trace(alloc: Global, seed: u64, vpes: u32, calls: u32) -> Response
    requires vpes { (1 ≤ vpes) × (vpes ≤ 128) }
    requires calls { vpes * calls ≤ 20000 }
    ensures { (g : GivenRecord) → Asks g (Generate seed vpes calls) → IsUntouched g
        → Responds g result }
{
    match generated_text(alloc, seed, vpes, calls) {
        Ok(text) => Response::told(alloc, Status::Done, text),
        Err(_) => Response::out_of_memory(alloc, Journal::new(alloc)),
    }
}

// The text of the trace that the seed generates.
fn generated_text(alloc: Global, seed: u64, vpes: u32, calls: u32) -> Result<Vec<u8>, OutOfMemory>
    requires vpes { (1 ≤ vpes) × (vpes ≤ 128) }
    requires calls { vpes * calls ≤ 20000 }
    ensures { IfOk result (λ text. text.items ≡ canonical (generated seed vpes calls)) }
{
    let setup = generate(alloc, seed, vpes, calls)?;
    let mut text = Vec::new(alloc);
    push_trace(&mut text, &setup)?;
    Ok(text)
}
