ghost use Rattle.std.specs.Prelude.{◌≡◌, ◌≤◌, ◌==◌, if◌then◌else◌, [], None, IfOk, IfErr, OnOk};
ghost use Rattle.sem_trace.specs.LineErrors.{Stops};
ghost use Rattle.sem_trace.specs.TextLines.{lines_of, words_of};
ghost use Rattle.sem_trace.specs.Refusal.{first_fault, lines_refusal, refusal};
ghost use Rattle.sem_trace.specs.SetupOfText.{Declare, Stands, IsWhy};
ghost use Rattle.sem_trace.specs.Earlier.{is_end};
ghost use Rattle.sem_reader.specs.Tells.{HasSizes};
ghost use Rattle.sem_reader.specs.Reads.{Accepts, Refuses, AcceptsLine, RefusesLine, IsReadUpTo};

use crate::tables::Tables;
use sem_key::Membership;
use sem_msg::Setup;
use sem_trace::{
    Cause, Declaration, LineError, LineFault, Lines, TraceError, at_line, bytes_fault,
    is_significant, read_declaration, read_first, read_second, read_third, refused,
};
use std::alloc::Global;

/// The most bytes of a trace.
const TRACE_BYTES: usize = 8388608;

// How far a trace is read.
#[derive(Clone, Copy, Debug, PartialEq, Eq)]
enum Stage {
    Start,
    Named,
    Counted,
    Open,
    Ended,
}

// What is read so far.
#[derive(Drop)]
struct Reader {
    stage: Stage,
    tables: Tables,
}

// The stage of the reader after the second line of a text of the version.
fn stage_behind(version: u8) -> Stage
    ensures { result ≡ (if version == 1 then Stage.Open else Stage.Counted) }
{
    if version == 1 {
        Stage::Open
    } else {
        Stage::Counted
    }
}

// The stage of the reader after a line after the first ones.
fn stage_after(d: &Declaration) -> Stage
    ensures { result ≡ (if is_end d.now then Stage.Ended else Stage.Open) }
{
    match d {
        Declaration::End => Stage::Ended,
        _ => Stage::Open,
    }
}

impl Reader {
    fn first(&mut self, line: &[u8]) -> Result<(), LineFault>
        requires stage { self.old.stage ≡ Stage.Start }
        requires sizes { HasSizes self.old.tables }
        ensures ok { OnOk result (Accepts (words_of line.now) self.old self.new) }
        ensures err { IfErr result (Refuses (words_of line.now) self.old) }
        ensures sizes { OnOk result (HasSizes self.new.tables) }
    {
        self.tables.version = read_first(line)?;
        self.stage = Stage::Named;
        Ok(())
    }

    fn second(&mut self, line: &[u8]) -> Result<(), LineFault>
        requires stage { self.old.stage ≡ Stage.Named }
        requires sizes { HasSizes self.old.tables }
        ensures ok { OnOk result (Accepts (words_of line.now) self.old self.new) }
        ensures err { IfErr result (Refuses (words_of line.now) self.old) }
        ensures sizes { OnOk result (HasSizes self.new.tables) }
    {
        let kernels = read_second(line, self.tables.version)?;
        self.tables.owners = Membership::empty(kernels);
        self.stage = stage_behind(self.tables.version);
        Ok(())
    }

    // Reads the third line of version 2.
    fn third(&mut self, line: &[u8]) -> Result<(), LineError>
        requires stage { self.old.stage ≡ Stage.Counted }
        requires sizes { HasSizes self.old.tables }
        requires few { self.old.tables.call_number ≤ 20000 }
        ensures ok { OnOk result (Accepts (words_of line.now) self.old self.new) }
        ensures err { IfErr result (Stops (Refuses (words_of line.now) self.old)) }
        ensures sizes { OnOk result (HasSizes self.new.tables) }
    {
        let d = read_third(line, self.tables.version)?;
        self.tables.enter(d)?;
        self.stage = Stage::Open;
        Ok(())
    }

    // Reads a line after the second.
    fn open(&mut self, line: &[u8]) -> Result<(), LineError>
        requires stage { self.old.stage ≡ Stage.Open }
        requires sizes { HasSizes self.old.tables }
        requires few { self.old.tables.call_number ≤ 20000 }
        ensures ok { OnOk result (Accepts (words_of line.now) self.old self.new) }
        ensures err { IfErr result (Stops (Refuses (words_of line.now) self.old)) }
        ensures sizes { OnOk result (HasSizes self.new.tables) }
    {
        let d = read_declaration(line, self.tables.version, self.tables.owners.kernels())?;
        if let Some(fault) = self.tables.fault(&d) {
            return Err(LineError::Refused(fault));
        }
        self.tables.enter(d)?;
        self.stage = stage_after(&d);
        Ok(())
    }

    fn line(&mut self, line: &[u8]) -> Result<(), LineError>
        requires sizes { HasSizes self.old.tables }
        requires few { self.old.tables.call_number ≤ 20000 }
        ensures ok { OnOk result (AcceptsLine line.now self.old self.new) }
        ensures err { IfErr result (Stops (RefusesLine line.now self.old)) }
        ensures sizes { OnOk result (HasSizes self.new.tables) }
    {
        if let Some(cause) = bytes_fault(line) {
            return Err(LineError::Refused(LineFault { cause, word: None }));
        }
        if !is_significant(line) {
            return Ok(());
        }
        match self.stage {
            Stage::Start => Ok(self.first(line)?),
            Stage::Named => Ok(self.second(line)?),
            Stage::Counted => self.third(line),
            Stage::Open => self.open(line),
            Stage::Ended => Err(LineError::Refused(LineFault {
                cause: Cause::TooMany,
                word: None,
            })),
        }
    }
}

// Reads all lines, and returns how many there are.
fn read_lines(alloc: Global, bytes: &[u8]) -> Result<(Reader, u64), TraceError>
    ensures read { IfOk result (λ r. IsReadUpTo bytes.now [] r.1 r.0) }
    ensures refused { IfErr result (IsWhy (first_fault (lines_of bytes.now))) }
{
    let Ok(tables) = Tables::new(alloc) else {
        return Err(TraceError::Memory);
    };
    let mut reader = Reader {
        stage: Stage::Start,
        tables,
    };
    let mut lines = Lines::of(bytes);
    let mut number = 0;
    while let Some(line) = lines.next_line() {
        number += 1;
        if let Err(e) = reader.line(line) {
            return Err(at_line(number, e));
        }
    }
    Ok((reader, number))
}

/// The setup that the lines of the text declare, however many bytes they are. The text is refused
/// at its first bad line.
pub fn read_section(alloc: Global, bytes: &[u8]) -> Result<Setup, TraceError>
    ensures declared { IfOk result (Declare (lines_of bytes.now)) }
    ensures refused { IfErr result (IsWhy (lines_refusal (lines_of bytes.now))) }
{
    let (reader, lines) = read_lines(alloc, bytes)?;
    match reader.stage {
        Stage::Ended => match reader.tables.setup(alloc) {
            Ok(setup) => Ok(setup),
            Err(_) => Err(TraceError::Memory),
        },
        _ => Err(refused(lines + 1, Cause::Missing)),
    }
}

/// The setup that the text stands for. The text is refused at its first bad line.
pub fn read_trace(alloc: Global, bytes: &[u8]) -> Result<Setup, TraceError>
    // If the text is read, it stands for the result, and is not refused.
    ensures stands { IfOk result (Stands bytes.now) }
    // If it is refused, this is its refusal.
    ensures refused { IfErr result (IsWhy (refusal bytes.now)) }
{
    if bytes.len() > TRACE_BYTES {
        return Err(refused(0, Cause::InputTooLong));
    }
    read_section(alloc, bytes)
}
