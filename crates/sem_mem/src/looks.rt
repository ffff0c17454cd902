// What runs tell of a range of addresses.
ghost use Rattle.std.specs.Prelude.{◌≡◌, ◌+◌, ◌≤◌, Option};
ghost use Rattle.sem_key.specs.declared.limits.TheConstants.{ADDRESSES};
ghost use Rattle.sem_access.specs.LastWrites.{greater_with as greater_spec, looked};
ghost use Rattle.sem_access.specs.Runs.{IsValidRun, AreRuns, entry_at};
ghost use Rattle.sem_mem.specs.Writing.{shared as shared_spec, with_run as with_run_spec};
ghost use Rattle.sem_mem.specs.Writing.{both as both_spec};
ghost use Rattle.sem_mem.specs.Chunks.{together, AreChunks};

use crate::runs::met_by;
use sem_access::{Look, Run};

/// What the range tells of the last writes of its addresses, by the runs of the chunks.
pub fn look_through(chunks: &[Vec<Run>], base: u64, len: u32) -> Look
    requires range { base + len ≤ ADDRESSES }
    requires chunks { AreChunks chunks.now }
    ensures { result ≡ looked (entry_at (together chunks.now)) base len }
{
    let mut found = Look {
        written: 0,
        newest: None,
    };
    for chunk in chunks {
        found = both(found, look_into(chunk, base, len));
    }
    found
}

// What the range tells of them, by the runs of a chunk.
fn look_into(runs: &[Run], base: u64, len: u32) -> Look
    requires range { base + len ≤ ADDRESSES }
    requires runs { AreRuns runs.now }
    ensures { result ≡ looked (entry_at runs.now) base len }
{
    let (from, to) = met_by(runs, base, base + u64::from(len));
    look_in(&runs[from..to], base, len)
}

// What some runs tell, and what others tell that share no address with them.
fn both(some: Look, more: Look) -> Look
    requires { some.written + more.written ≤ ADDRESSES }
    ensures { result ≡ both_spec some more }
{
    Look {
        written: some.written + more.written,
        newest: match some.newest {
            Some(entry) => Some(greater(entry, more.newest)),
            None => more.newest,
        },
    }
}

// What the range tells of the last writes of its addresses.
fn look_in(runs: &[Run], base: u64, len: u32) -> Look
    requires range { base + len ≤ ADDRESSES }
    requires runs { AreRuns runs.now }
    ensures { result ≡ looked (entry_at runs.now) base len }
{
    let end = base + u64::from(len);
    let mut found = Look {
        written: 0,
        newest: None,
    };
    for run in runs {
        found = with_run(found, run, base, end);
    }
    found
}

// What was found, and what the run tells besides.
fn with_run(found: Look, run: &Run, from: u64, end: u64) -> Look
    requires run { IsValidRun run.now }
    requires few { found.written + shared_spec from end run.now ≤ ADDRESSES }
    ensures { result ≡ with_run_spec from end found run.now }
{
    let shared = shared(run, from, end);
    if shared == 0 {
        found
    } else {
        Look {
            written: found.written + shared,
            newest: Some(greater(run.entry, found.newest)),
        }
    }
}

// How many addresses of the run lie from one address on and below another.
fn shared(run: &Run, from: u64, end: u64) -> u64
    requires { IsValidRun run.now }
    ensures { result ≡ shared_spec from end run.now }
{
    end.min(run.base + run.len)
        .saturating_sub(run.base.max(from))
}

// The greater of the entry and an optional one.
fn greater(entry: u64, newest: Option<u64>) -> u64
    ensures { Some result ≡ greater_spec entry newest }
{
    match newest {
        Some(other) => entry.max(other),
        None => entry,
    }
}
