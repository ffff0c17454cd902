// What a line says, from its first word on.
#![tactic(auto, unfolding(sem_trace::specs::Forms::form_fault, crate::specs::FileForms::form, crate::specs::FileForms::lines, crate::specs::Said::said))]

ghost use Rattle.std.specs.Prelude.{◌≡◌, ◌∷◌, codes};
ghost use Rattle.std.specs.Result.{result_err};
ghost use Rattle.sem_trace.specs.TextLines.{words_of};
ghost use Rattle.sem_trace.specs.Forms.{form_fault, word_fault};
ghost use Rattle.sem_trace.specs.Places.{told_fault};
ghost use Rattle.sem_files.specs.FileForms.{first_form};
ghost use Rattle.sem_files.specs.FileReads.{ReadsWords, ReadsLine};

use crate::acts::{CLIENT, SMALL, read_act};
use crate::files::{Command, FileDecl};
use crate::lines::FileLine;
use sem_trace::{Cause, LineFault, Range, Words};

/// How many kernels there are.
const KERNELS: Range = Range { least: 1, most: 16 };

/// How many extents a file has.
const EXTENTS: Range = Range { least: 1, most: 4 };

#[tactic(auto, unfolding(crate::specs::FileForms::first_form))]
fn first_words(words: &mut Words<'_>) -> Result<(), Cause>
    ensures { form_fault first_form words.old ≡ told_fault result words.new }
{
    words.fixed(b"semper")?;
    words.fixed(b"files")?;
    words.fixed(b"1")?;
    words.no_more()
}

/// Checks that the line is the first of file commands. Takes no memory.
pub(crate) fn read_first(line: &[u8]) -> Result<(), LineFault>
    ensures { word_fault first_form (words_of line.now) ≡ result_err result }
{
    let mut words = Words::of(line);
    match first_words(&mut words) {
        Ok(()) => Ok(()),
        Err(cause) => Err(words.fault_in(line, cause)),
    }
}

/// What a line after the second says. Takes no memory.
pub(crate) fn read_line(line: &[u8]) -> Result<FileLine, LineFault>
    ensures { ReadsLine (words_of line.now) result }
{
    let mut words = Words::of(line);
    match read_words(&mut words) {
        Ok(said) => Ok(said),
        Err(cause) => Err(words.fault_in(line, cause)),
    }
}

fn kernels_line(words: &mut Words<'_>) -> Result<FileLine, Cause>
    ensures { ReadsWords (codes "kernels" ∷ words.old) words.new result }
{
    let [kernels, ..] = words.last_numbers(&[KERNELS])?;
    Ok(FileLine::Kernels {
        kernels: kernels as u32,
    })
}

fn file_line(words: &mut Words<'_>) -> Result<FileLine, Cause>
    ensures { ReadsWords (codes "file" ∷ words.old) words.new result }
{
    let [file, extents, ..] = words.last_numbers(&[SMALL, EXTENTS])?;
    let declared = FileDecl {
        file: file as u8,
        extents: extents as u8,
    };
    Ok(FileLine::File { declared })
}

fn client_line(words: &mut Words<'_>) -> Result<FileLine, Cause>
    ensures { ReadsWords (codes "client" ∷ words.old) words.new result }
{
    let [client, ..] = words.last_numbers(&[CLIENT])?;
    Ok(FileLine::Client {
        client: client as u16,
    })
}

fn do_line(words: &mut Words<'_>) -> Result<FileLine, Cause>
    ensures { ReadsWords (codes "do" ∷ words.old) words.new result }
{
    let [client, ..] = words.numbers(&[CLIENT])?;
    let act = read_act(words)?;
    let command = Command {
        client: client as u16,
        act,
    };
    Ok(FileLine::Do { command })
}

fn end_line(words: &mut Words<'_>) -> Result<FileLine, Cause>
    ensures { ReadsWords (codes "end" ∷ words.old) words.new result }
{
    words.no_more()?;
    Ok(FileLine::End)
}

// What the words of a line after the second say.
fn read_words(words: &mut Words<'_>) -> Result<FileLine, Cause>
    ensures { ReadsWords words.old words.new result }
{
    match words.word()? {
        b"kernels" => kernels_line(words),
        b"file" => file_line(words),
        b"client" => client_line(words),
        b"do" => do_line(words),
        b"end" => end_line(words),
        _ => Err(Cause::UnknownWord),
    }
}
