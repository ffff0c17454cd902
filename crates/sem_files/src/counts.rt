// How many calls an act adds.
ghost use Rattle.std.specs.Prelude.{◌≡◌, ℕ, ◌≤◌, if◌then◌else◌, flat_map, length};
ghost use Rattle.sem_msg.specs.declared.call.Call.{Call};
ghost use Rattle.sem_files.specs.Compiled.{greater as greater_spec, less as less_spec};
ghost use Rattle.sem_files.specs.Compiled.{part_accessed};
ghost use Rattle.sem_files.specs.Compiled.{below, calls_of_act as calls_of_act_spec};
ghost use Rattle.sem_files.specs.OneMore.{touches};
ghost use Rattle.sem_files.specs.FileReads.{IsActInRange};

use crate::files::FileAct;

/// The bytes of an extent.
pub const EXTENT: u32 = 4096;

fn greater(a: u32, b: u32) -> u32
    ensures { result ≡ greater_spec a b }
{
    if a < b { b } else { a }
}

fn less(a: u32, b: u32) -> u32
    ensures { result ≡ less_spec a b }
{
    if a < b { a } else { b }
}

// How many calls access the part of the range in the extent.
fn part_calls(off: u32, len: u32, extent: u32) -> u32
    requires off { off ≤ 16383 }
    requires len { len ≤ 16384 }
    requires extent { extent ≤ 255 }
    ensures number { result ≡ (if touches off len extent then 2 else 0) }
    ensures few { result ≤ 2 }
{
    if greater(off, EXTENT * extent) < less(off + len, EXTENT * (extent + 1)) {
        2
    } else {
        0
    }
}

// How many calls access the range of a file of that many extents.
fn accesses(extents: u8, off: u32, len: u32) -> u32
    requires off { off ≤ 16383 }
    requires len { len ≤ 16384 }
    ensures number { (access : ℕ → ℕ → Call) (h : ℕ) →
        result ≡ length (flat_map (part_accessed access h off len) (below extents)) }
    ensures few { result ≤ 510 }
{
    let mut calls = 0;
    for extent in 0..u32::from(extents) {
        calls += part_calls(off, len, extent);
    }
    calls
}

/// How many calls the act adds, on a file of that many extents.
pub(crate) fn calls_of_act(extents: u8, act: &FileAct) -> u32
    requires { IsActInRange act.now }
    ensures number { result ≡ length (calls_of_act_spec extents act.now) }
    ensures few { result ≤ 510 }
{
    match *act {
        FileAct::Read { off, len, .. } | FileAct::Write { off, len, .. } => {
            accesses(extents, off, len)
        }
        FileAct::OpenFile { .. } | FileAct::Share { .. } | FileAct::Close { .. } => {
            u32::from(extents)
        }
    }
}
