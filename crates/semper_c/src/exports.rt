ghost use Rattle.std.specs.Prelude.{◌≡◌, ◌⊎◌, length};
ghost use Rattle.sem_cli.specs.declared.forms.Question.TheVariants.{Check as CheckQuestion};
ghost use Rattle.sem_cli.specs.declared.forms.Question.TheVariants.{Contents as ContentsQuestion};
ghost use Rattle.semper_c.specs.Answers.{Hands, TellsStatus, IsTooLong, RunAnswer, ReportAnswer};

use crate::answers::{Answer, check, contents, run};
use std::alloc::Global;

/// The result if the buffer is too small for the text. No status of the program has this number.
const TOO_SMALL: u32 = 10;

/// The version of this interface.
#[unsafe(no_mangle)]
pub extern "C" fn semper_version() -> u32
    ensures { result ≡ 1 }
{
    1
}

/// Runs the trace by the seed, on one thread, and writes its report or the line that refuses it.
#[unsafe(no_mangle)]
pub extern "C" fn semper_run(
    alloc: Global,
    text: &[u8],
    seed: u64,
    out: &mut [u8],
    written: &mut usize,
) -> u32
    ensures { Hands (RunAnswer text.now seed) out.old out.new written.new result }
{
    hand_over(&run(alloc, text, seed), out, written)
}

/// Checks the report, and writes `ok` or the line that refuses it.
#[unsafe(no_mangle)]
pub extern "C" fn semper_check(
    alloc: Global,
    text: &[u8],
    out: &mut [u8],
    written: &mut usize,
) -> u32
    ensures { Hands (ReportAnswer CheckQuestion text.now) out.old out.new written.new result }
{
    hand_over(&check(alloc, text), out, written)
}

/// Checks the report, and writes what memory holds after it or the line that refuses it.
#[unsafe(no_mangle)]
pub extern "C" fn semper_contents(
    alloc: Global,
    text: &[u8],
    out: &mut [u8],
    written: &mut usize,
) -> u32
    ensures { Hands (ReportAnswer ContentsQuestion text.now) out.old out.new written.new result }
{
    hand_over(&contents(alloc, text), out, written)
}

// Copies the text into the buffer if it fits, and counts its bytes. Returns the number of its
// status, or TOO_SMALL.
fn hand_over(answer: &Answer, out: &mut [u8], written: &mut usize) -> u32
    ensures counted { written.new ≡ length answer.now.text.items }
    ensures handed { TellsStatus answer.now.status answer.now.text.items out.old out.new result
        ⊎ IsTooLong answer.now.text.items out.old out.new result }
{
    let length = answer.text.len();
    *written = length;
    if length > out.len() {
        return TOO_SMALL;
    }
    out[..length].copy_from_slice(&answer.text);
    u32::from(answer.status.number())
}
