// The calls of the acts of a client.
ghost use Rattle.std.specs.Prelude.{◌≡◌, ◌<◌, ◌≤◌, ◌+◌, ◌++◌, OnOk};
ghost use Rattle.sem_files.specs.declared.files.FileAct.TheVariants.{OpenFile, Share, Close};
ghost use Rattle.sem_files.specs.Compiled.{part_begin as part_begin_spec};
ghost use Rattle.sem_files.specs.Compiled.{part_end as part_end_spec};
ghost use Rattle.sem_files.specs.Compiled.{part_accessed, calls_of_act};
ghost use Rattle.sem_fs.specs.Acts.{access_call, parts_accessed, IsPlainAct};

use crate::places::{given_selector, number_of_extent, opened_selector};
use sem_files::{EXTENT, FileAct};
use sem_key::OutOfMemory;
use sem_msg::{Call, Calls};

// The selector of the session of a client.
pub const SESSION: u8 = 0;

// The endpoint through which a client reads and writes.
const ACCESS: u8 = 0;

// How bytes are accessed.
#[derive(Clone, Copy, Debug)]
pub enum Way {
    Reading,
    Writing,
}

// The call that accesses a range through the endpoint.
fn access(way: Way, off: u32, len: u32) -> Call
    ensures { result ≡ access_call way off len }
{
    match way {
        Way::Reading => Call::Read {
            ep: ACCESS,
            off,
            len,
        },
        Way::Writing => Call::Write {
            ep: ACCESS,
            off,
            len,
        },
    }
}

// Where the part of a range in an extent begins.
fn part_begin(off: u32, extent: u8) -> u32
    requires extent { extent < 4 }
    ensures { result ≡ part_begin_spec off extent }
{
    off.max(EXTENT * u32::from(extent))
}

// Where the part of a range in an extent ends.
fn part_end(off: u32, len: u32, extent: u8) -> u32
    requires off { off ≤ 16383 }
    requires len { len ≤ 16384 }
    requires extent { extent < 4 }
    ensures { result ≡ part_end_spec off len extent }
{
    (off + len).min(EXTENT * (u32::from(extent) + 1))
}

// Appends the calls that ask the server for each extent of a file.
fn push_opening(calls: &mut Calls, handle: u8, file: u8, extents: u8) -> Result<(), OutOfMemory>
    requires handle { handle ≤ 15 }
    requires file { file ≤ 15 }
    requires extents { extents ≤ 4 }
    ensures { OnOk result (calls.new ≡ calls.old ++ calls_of_act extents (OpenFile handle file)) }
{
    for extent in 0..extents {
        let dst = opened_selector(handle, extent);
        let index = number_of_extent(file, extent);
        calls.push(Call::AskOffer {
            dst,
            session: SESSION,
            index,
        })?;
    }
    Ok(())
}

// Appends the calls that bind an extent and access the part of a range in it, if there is one.
fn push_part(
    calls: &mut Calls,
    way: Way,
    handle: u8,
    off: u32,
    len: u32,
    extent: u8,
) -> Result<(), OutOfMemory>
    requires handle { handle ≤ 15 }
    requires off { off ≤ 16383 }
    requires len { len ≤ 16384 }
    requires extent { extent < 4 }
    ensures { OnOk result
        (calls.new ≡ calls.old ++ part_accessed (access_call way) handle off len extent) }
{
    let begin = part_begin(off, extent);
    let end = part_end(off, len, extent);
    if begin < end {
        let src = opened_selector(handle, extent);
        calls.push(Call::Bind { ep: ACCESS, src })?;
        let call = access(way, begin - EXTENT * u32::from(extent), end - begin);
        calls.push(call)?;
    }
    Ok(())
}

// Appends the calls that access a range, extent by extent.
fn push_accesses(
    calls: &mut Calls,
    way: Way,
    handle: u8,
    off: u32,
    len: u32,
    extents: u8,
) -> Result<(), OutOfMemory>
    requires handle { handle ≤ 15 }
    requires off { off ≤ 16383 }
    requires len { len ≤ 16384 }
    requires extents { extents ≤ 4 }
    ensures { OnOk result (calls.new ≡ calls.old ++ parts_accessed way handle off len extents) }
{
    for extent in 0..extents {
        push_part(calls, way, handle, off, len, extent)?;
    }
    Ok(())
}

// Appends the calls that give each extent of a file to another client.
fn push_sharing(
    calls: &mut Calls,
    handle: u8,
    to: u16,
    other: u8,
    extents: u8,
) -> Result<(), OutOfMemory>
    requires handle { handle ≤ 15 }
    requires other { other ≤ 15 }
    requires extents { extents ≤ 4 }
    ensures { OnOk result (calls.new ≡ calls.old ++ calls_of_act extents (Share handle to other)) }
{
    for extent in 0..extents {
        let src = opened_selector(handle, extent);
        let dst = given_selector(other, extent);
        calls.push(Call::Delegate { src, vpe: to, dst })?;
    }
    Ok(())
}

// Appends the calls that revoke each extent of a file.
fn push_closing(calls: &mut Calls, handle: u8, extents: u8) -> Result<(), OutOfMemory>
    requires handle { handle ≤ 15 }
    requires extents { extents ≤ 4 }
    ensures { OnOk result (calls.new ≡ calls.old ++ calls_of_act extents (Close handle)) }
{
    for extent in 0..extents {
        let src = opened_selector(handle, extent);
        calls.push(Call::Revoke { src })?;
    }
    Ok(())
}

// Appends the calls of an act on a file of that many extents.
pub fn push_act(calls: &mut Calls, act: FileAct, extents: u8) -> Result<(), OutOfMemory>
    requires act { IsPlainAct act }
    requires extents { extents ≤ 4 }
    ensures { OnOk result (calls.new ≡ calls.old ++ calls_of_act extents act) }
{
    match act {
        FileAct::OpenFile { handle, file } => push_opening(calls, handle, file, extents),
        FileAct::Read { handle, off, len } => {
            push_accesses(calls, Way::Reading, handle, off, len, extents)
        }
        FileAct::Write { handle, off, len } => {
            push_accesses(calls, Way::Writing, handle, off, len, extents)
        }
        FileAct::Share { handle, to, other } => { push_sharing(calls, handle, to, other, extents) }
        FileAct::Close { handle } => push_closing(calls, handle, extents),
    }
}
