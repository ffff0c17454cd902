// The lines of commands, and how many calls each compiles to.
use sem_files::{Command, EXTENT, FileAct, Files, HANDLES};
use sem_key::OutOfMemory;
use std::alloc::Global;

/// For each handle of a client, how many extents its open file has.
#[derive(Clone, Copy, Debug)]
pub struct Opened {
    extents: [u8; HANDLES],
}

impl Opened {
    /// All handles closed.
    pub fn new() -> Self {
        Opened {
            extents: [0; HANDLES],
        }
    }

    /// How many calls the act compiles to. An opening opens its handle.
    pub fn count(&mut self, files: &Files, act: &FileAct) -> usize {
        match *act {
            FileAct::OpenFile { handle, file } => {
                let extents = extents_of(files, file);
                if let Some(kept) = self.extents.get_mut(usize::from(handle)) {
                    *kept = extents;
                }
                usize::from(extents)
            }
            FileAct::Read { off, len, .. } | FileAct::Write { off, len, .. } => {
                touched(off, len).saturating_mul(2)
            }
            FileAct::Share { handle, .. } | FileAct::Close { handle } => {
                match self.extents.get(usize::from(handle)) {
                    Some(extents) => usize::from(*extents),
                    None => 0,
                }
            }
        }
    }
}

fn extents_of(files: &Files, file: u8) -> u8 {
    for declared in files.files.as_slice() {
        if declared.file == file {
            return declared.extents;
        }
    }
    0
}

// How many extents a range touches.
fn touched(off: u32, len: u32) -> usize {
    let last = off.saturating_add(len).saturating_sub(1);
    (last / EXTENT)
        .saturating_sub(off / EXTENT)
        .saturating_add(1) as usize
}

/// Appends the line of the command, as a comment.
pub fn push_command(alloc: Global, out: &mut String, command: &Command) -> Result<(), OutOfMemory> {
    let client = command.client;
    let text = match command.act {
        FileAct::OpenFile { handle, file } => {
            format!(in alloc; "# do {client} open {handle} {file}\n")?
        }
        FileAct::Read { handle, off, len } => {
            format!(in alloc; "# do {client} read {handle} {off} {len}\n")?
        }
        FileAct::Write { handle, off, len } => {
            format!(in alloc; "# do {client} write {handle} {off} {len}\n")?
        }
        FileAct::Share { handle, to, other } => {
            format!(in alloc; "# do {client} share {handle} {to} {other}\n")?
        }
        FileAct::Close { handle } => format!(in alloc; "# do {client} close {handle}\n")?,
    };
    out.push_str(text.as_str())
}
