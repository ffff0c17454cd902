// The parts of runs on one side of an address.
ghost use Rattle.std.specs.Prelude.{◌≡◌, ◌++◌, filter_map, OnOk};
ghost use Rattle.std.specs.Option.{option_to_list};
ghost use Rattle.sem_access.specs.Runs.{IsValidRun, AreRuns};
ghost use Rattle.sem_mem.specs.Chunks.{together, AreChunks};
ghost use Rattle.sem_mem.specs.Writing.{lower_part as lower_part_spec};
ghost use Rattle.sem_mem.specs.Writing.{upper_part as upper_part_spec};

use crate::runs::count_ended;
use sem_access::Run;
use sem_key::OutOfMemory;

/// Appends the parts of the runs of the chunks that lie below the address.
pub fn push_lower_parts(
    out: &mut Vec<Run>,
    chunks: &[Vec<Run>],
    end: u64,
) -> Result<(), OutOfMemory>
    requires { AreChunks chunks.now }
    ensures { OnOk result (out.new.items ≡ out.old.items
        ++ filter_map (lower_part_spec end) (together chunks.now)) }
{
    for chunk in chunks {
        push_lower(out, chunk, end)?;
    }
    Ok(())
}

/// Appends the parts of the runs of the chunks that lie from the address on.
pub fn push_upper_parts(
    out: &mut Vec<Run>,
    chunks: &[Vec<Run>],
    from: u64,
) -> Result<(), OutOfMemory>
    requires { AreChunks chunks.now }
    ensures { OnOk result (out.new.items ≡ out.old.items
        ++ filter_map (upper_part_spec from) (together chunks.now)) }
{
    for chunk in chunks {
        push_upper(out, chunk, from)?;
    }
    Ok(())
}

// Appends the parts of the runs that lie below the address: the first runs whole, and maybe a part
// of one more.
fn push_lower(out: &mut Vec<Run>, runs: &[Run], end: u64) -> Result<(), OutOfMemory>
    requires { AreRuns runs.now }
    ensures { OnOk result (out.new.items ≡ out.old.items
        ++ filter_map (lower_part_spec end) runs.now) }
{
    let whole = count_ended(runs, end);
    out.extend_from_slice(&runs[..whole])?;
    match runs.get(whole) {
        Some(run) => push_part(out, lower_part(run, end)),
        None => Ok(()),
    }
}

// Appends the parts of the runs that lie from the address on: maybe a part of a run, and those
// behind it whole.
fn push_upper(out: &mut Vec<Run>, runs: &[Run], from: u64) -> Result<(), OutOfMemory>
    requires { AreRuns runs.now }
    ensures { OnOk result (out.new.items ≡ out.old.items
        ++ filter_map (upper_part_spec from) runs.now) }
{
    let ended = count_ended(runs, from);
    match runs.get(ended) {
        Some(run) => {
            push_part(out, upper_part(run, from))?;
            out.extend_from_slice(&runs[ended + 1..])
        }
        None => Ok(()),
    }
}

// Appends the part, if there is one.
fn push_part(out: &mut Vec<Run>, part: Option<Run>) -> Result<(), OutOfMemory>
    ensures { OnOk result (out.new.items ≡ out.old.items ++ option_to_list part) }
{
    match part {
        Some(part) => Ok(out.push(part)?),
        None => Ok(()),
    }
}

// The part of the run that lies below the address.
fn lower_part(run: &Run, end: u64) -> Option<Run>
    requires { IsValidRun run.now }
    ensures { result ≡ lower_part_spec end run.now }
{
    if run.base < end {
        Some(Run {
            base: run.base,
            len: (run.base + run.len).min(end) - run.base,
            entry: run.entry,
        })
    } else {
        None
    }
}

// The part of the run that lies from the address on.
fn upper_part(run: &Run, from: u64) -> Option<Run>
    requires { IsValidRun run.now }
    ensures { result ≡ upper_part_spec from run.now }
{
    let end = run.base + run.len;
    if from < end {
        let base = run.base.max(from);
        Some(Run {
            base,
            len: end - base,
            entry: run.entry,
        })
    } else {
        None
    }
}
