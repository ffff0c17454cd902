// What a client does, from the name of the act on.
#![tactic(auto, unfolding(sem_trace::specs::Forms::form_fault, crate::specs::FileForms::acts, crate::specs::Said::act_from))]

ghost use Rattle.std.specs.Prelude.{◌∷◌, codes};
ghost use Rattle.sem_files.specs.FileReads.{ReadsAct};

use crate::files::FileAct;
use sem_trace::{Cause, Range, Words};

/// A file, a handle, or the number under which a client receives a file.
pub(crate) const SMALL: Range = Range { least: 0, most: 15 };

/// A client.
pub(crate) const CLIENT: Range = Range { least: 1, most: 63 };

/// The beginning of a range of a file.
const OFFSET: Range = Range {
    least: 0,
    most: 16383,
};

/// The length of a range of a file.
const SIZE: Range = Range {
    least: 1,
    most: 16384,
};

// Reads the act at the end of a line.
pub(crate) fn read_act(words: &mut Words<'_>) -> Result<FileAct, Cause>
    ensures { ReadsAct words.old words.new result }
{
    match words.word()? {
        b"open" => open_file(words),
        b"read" => read(words),
        b"write" => write(words),
        b"share" => share(words),
        b"close" => close(words),
        _ => Err(Cause::UnknownWord),
    }
}

fn open_file(words: &mut Words<'_>) -> Result<FileAct, Cause>
    ensures { ReadsAct (codes "open" ∷ words.old) words.new result }
{
    let [handle, file, ..] = words.last_numbers(&[SMALL, SMALL])?;
    Ok(FileAct::OpenFile {
        handle: handle as u8,
        file: file as u8,
    })
}

fn read(words: &mut Words<'_>) -> Result<FileAct, Cause>
    ensures { ReadsAct (codes "read" ∷ words.old) words.new result }
{
    let [handle, off, len, ..] = words.last_numbers(&[SMALL, OFFSET, SIZE])?;
    Ok(FileAct::Read {
        handle: handle as u8,
        off: off as u32,
        len: len as u32,
    })
}

fn write(words: &mut Words<'_>) -> Result<FileAct, Cause>
    ensures { ReadsAct (codes "write" ∷ words.old) words.new result }
{
    let [handle, off, len, ..] = words.last_numbers(&[SMALL, OFFSET, SIZE])?;
    Ok(FileAct::Write {
        handle: handle as u8,
        off: off as u32,
        len: len as u32,
    })
}

fn share(words: &mut Words<'_>) -> Result<FileAct, Cause>
    ensures { ReadsAct (codes "share" ∷ words.old) words.new result }
{
    let [handle, to, other, ..] = words.last_numbers(&[SMALL, CLIENT, SMALL])?;
    Ok(FileAct::Share {
        handle: handle as u8,
        to: to as u16,
        other: other as u8,
    })
}

fn close(words: &mut Words<'_>) -> Result<FileAct, Cause>
    ensures { ReadsAct (codes "close" ∷ words.old) words.new result }
{
    let [handle, ..] = words.last_numbers(&[SMALL])?;
    Ok(FileAct::Close {
        handle: handle as u8,
    })
}
