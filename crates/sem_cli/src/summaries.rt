// The summary of a load run in threads.
ghost use Rattle.std.specs.Prelude.{◌≡◌, ◌++◌, OnOk};
ghost use Rattle.sem_cli.specs.Summary.{count_line, summary};

use sem_key::OutOfMemory;
use sem_text::push_number;

/// Appends the summary: how many VPEs and calls there are, how many calls were answered, and how
/// many keys are stray. If memory is refused, it may have appended a part.
pub fn push_summary(
    out: &mut Vec<u8>,
    vpes: u64,
    calls: u64,
    answered: u64,
    stray: u64,
) -> Result<(), OutOfMemory>
    ensures ok { OnOk result (out.new.items ≡ out.old.items ++ summary vpes calls answered stray) }
{
    out.extend_from_slice(b"soak 1\n")?;
    push_count(out, b"vpes ", vpes)?;
    push_count(out, b"calls ", calls)?;
    push_count(out, b"answered ", answered)?;
    push_count(out, b"stray ", stray)?;
    Ok(())
}

// Appends the line of a word, which ends with a blank, and a number.
fn push_count(out: &mut Vec<u8>, word: &[u8], number: u64) -> Result<(), OutOfMemory>
    ensures ok { OnOk result (out.new.items ≡ out.old.items ++ count_line word.now number) }
{
    out.extend_from_slice(word)?;
    push_number(out, number)?;
    out.push(b'\n')?;
    Ok(())
}
