ghost use Rattle.std.specs.Prelude.{◌≡◌, [], None, if◌then◌else◌, IfOk, IfErr, OnOk};
ghost use Rattle.sem_trace.specs.LineErrors.{Stops};
ghost use Rattle.sem_trace.specs.TextLines.{lines_of, words_of};
ghost use Rattle.sem_trace.specs.SetupOfText.{IsWhy};
ghost use Rattle.sem_files.specs.Said.{is_end};
ghost use Rattle.sem_files.specs.FileRefusal.{first_fault, lines_refusal, refusal};
ghost use Rattle.sem_files.specs.FilesOfText.{FilesStand};
ghost use Rattle.sem_files.specs.Tells.{Tells, files_in};
ghost use Rattle.sem_files.specs.Reads.{Accepts, Refuses, AcceptsLine, RefusesLine};
ghost use Rattle.sem_files.specs.Reads.{IsReadUpTo, Say};

use crate::files::Files;
use crate::forms::{read_first, read_line};
use crate::lines::FileLine;
use crate::tables::Tables;
use sem_trace::{
    Cause, LineError, LineFault, Lines, TraceError, at_line, bytes_fault, is_significant,
    read_second, refused,
};
use std::alloc::Global;

/// The most bytes of a text.
const TEXT_BYTES: usize = 8388608;

// How far a text is read.
#[derive(Clone, Copy, Debug, PartialEq, Eq)]
enum Stage {
    Start,
    Named,
    Open,
    Ended,
}

// What is read so far.
#[derive(Drop)]
struct Reader {
    stage: Stage,
    tables: Tables,
}

// The stage of the reader after a line after the second.
fn stage_after(line: &FileLine) -> Stage
    ensures { result ≡ (if is_end line.now then Stage.Ended else Stage.Open) }
{
    match line {
        FileLine::End => Stage::Ended,
        _ => Stage::Open,
    }
}

impl Tables {
    // What the lines said, as file commands.
    fn into_files(self) -> Files
        requires { Tells self }
        ensures { result ≡ files_in self }
    {
        Files {
            kernels: self.kernels,
            files: self.files,
            clients: self.clients,
            commands: self.commands,
        }
    }
}

impl Reader {
    fn first(&mut self, line: &[u8]) -> Result<(), LineFault>
        requires stage { self.old.stage ≡ Stage.Start }
        requires tells { Tells self.old.tables }
        ensures ok { OnOk result (Accepts (words_of line.now) self.old self.new) }
        ensures err { IfErr result (Refuses (words_of line.now) self.old) }
        ensures tells { OnOk result (Tells self.new.tables) }
    {
        read_first(line)?;
        self.stage = Stage::Named;
        Ok(())
    }

    fn second(&mut self, alloc: Global, line: &[u8]) -> Result<(), LineFault>
        requires stage { self.old.stage ≡ Stage.Named }
        ensures ok { OnOk result (Accepts (words_of line.now) self.old self.new) }
        ensures err { IfErr result (Refuses (words_of line.now) self.old) }
        ensures tells { OnOk result (Tells self.new.tables) }
    {
        let kernels = read_second(line, 1)?;
        self.tables = Tables::new(alloc, kernels);
        self.stage = Stage::Open;
        Ok(())
    }

    // Reads a line after the second.
    fn open(&mut self, line: &[u8]) -> Result<(), LineError>
        requires stage { self.old.stage ≡ Stage.Open }
        requires tells { Tells self.old.tables }
        ensures ok { OnOk result (Accepts (words_of line.now) self.old self.new) }
        ensures err { IfErr result (Stops (Refuses (words_of line.now) self.old)) }
        ensures tells { OnOk result (Tells self.new.tables) }
    {
        let said = read_line(line)?;
        if let Some(fault) = self.tables.fault(&said) {
            return Err(LineError::Refused(fault));
        }
        self.tables.enter(said)?;
        self.stage = stage_after(&said);
        Ok(())
    }

    fn line(&mut self, alloc: Global, line: &[u8]) -> Result<(), LineError>
        requires tells { Tells self.old.tables }
        ensures ok { OnOk result (AcceptsLine line.now self.old self.new) }
        ensures err { IfErr result (Stops (RefusesLine line.now self.old)) }
        ensures tells { OnOk result (Tells self.new.tables) }
    {
        if let Some(cause) = bytes_fault(line) {
            return Err(LineError::Refused(LineFault { cause, word: None }));
        }
        if !is_significant(line) {
            return Ok(());
        }
        match self.stage {
            Stage::Start => Ok(self.first(line)?),
            Stage::Named => Ok(self.second(alloc, line)?),
            Stage::Open => self.open(line),
            Stage::Ended => Err(LineError::Refused(LineFault {
                cause: Cause::TooMany,
                word: None,
            })),
        }
    }
}

// Reads all lines, and returns how many there are.
fn read_lines(alloc: Global, bytes: &[u8]) -> Result<(Reader, u64), TraceError>
    ensures read { IfOk result (λ r. IsReadUpTo bytes.now [] r.1 r.0) }
    ensures refused { IfErr result (IsWhy (first_fault (lines_of bytes.now))) }
{
    let mut reader = Reader {
        stage: Stage::Start,
        tables: Tables::new(alloc, 1),
    };
    let mut lines = Lines::of(bytes);
    let mut number = 0;
    while let Some(line) = lines.next_line() {
        number += 1;
        if let Err(e) = reader.line(alloc, line) {
            return Err(at_line(number, e));
        }
    }
    Ok((reader, number))
}

// What the lines of the text say, however many bytes they are.
fn read_all(alloc: Global, bytes: &[u8]) -> Result<Files, TraceError>
    ensures said { IfOk result (Say (lines_of bytes.now)) }
    ensures refused { IfErr result (IsWhy (lines_refusal (lines_of bytes.now))) }
{
    let (reader, lines) = read_lines(alloc, bytes)?;
    match reader.stage {
        Stage::Ended => Ok(reader.tables.into_files()),
        _ => Err(refused(lines + 1, Cause::Missing)),
    }
}

/// The file commands that the text stands for. The text is refused at its first bad line.
pub fn read_files(alloc: Global, bytes: &[u8]) -> Result<Files, TraceError>
    // If the text is read, it stands for the result, and is not refused.
    ensures stands { IfOk result (FilesStand bytes.now) }
    // If it is refused, this is its refusal.
    ensures refused { IfErr result (IsWhy (refusal bytes.now)) }
{
    if bytes.len() > TEXT_BYTES {
        return Err(refused(0, Cause::InputTooLong));
    }
    read_all(alloc, bytes)
}
