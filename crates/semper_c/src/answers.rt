// The program on one thread, with its input and its output in memory.
ghost use Rattle.std.specs.Prelude.{◌≡◌, true, [], Some, IfOk};
ghost use Rattle.sem_cli.specs.declared.forms.Command.{Command as CommandData};
ghost use Rattle.sem_cli.specs.declared.forms.Command.TheVariants.{Run, Ask};
ghost use Rattle.sem_cli.specs.declared.forms.Question.TheVariants.{Check as CheckQuestion};
ghost use Rattle.sem_cli.specs.declared.forms.Question.TheVariants.{Contents as ContentsQuestion};
ghost use Rattle.sem_run.specs.Inputs.{asked_by, is_alone};
ghost use Rattle.semper_c.specs.Answers.{RunAnswer, ReportAnswer};
ghost use Rattle.semper_c.specs.Served.{IsServedOrLacks};

use crate::kept::KeptSink;
use sem_cli::Status;
use sem_io::SureSource;
use sem_msg::Journal;
use sem_run::semper_alone;
use std::alloc::{AllocError as OutOfMemory, Global};

/// What the program answers: its status, and the text that it writes.
#[derive(Drop)]
pub struct Answer {
    pub status: Status,
    pub text: Vec<u8>,
}

impl Answer {
    // The answer if memory was refused.
    fn out_of_memory(alloc: Global) -> Self
        ensures status { result.status ≡ Status.Memory }
        ensures text { result.text.items ≡ [] }
    {
        Answer {
            status: Status::Memory,
            text: Vec::new(alloc),
        }
    }
}

/// The answer to a trace and a seed.
pub fn run(alloc: Global, trace: &[u8], seed: u64) -> Answer
    ensures { RunAnswer trace.now seed result.status result.text.items }
{
    match run_words(alloc, seed) {
        Ok(words) => serve(alloc, &words, trace),
        Err(OutOfMemory) => Answer::out_of_memory(alloc),
    }
}

/// Whether the text is the report of a complete schedule.
pub fn check(alloc: Global, report: &[u8]) -> Answer
    ensures { ReportAnswer CheckQuestion report.now result.status result.text.items }
{
    match check_words(alloc) {
        Ok(words) => serve(alloc, &words, report),
        Err(OutOfMemory) => Answer::out_of_memory(alloc),
    }
}

/// What memory holds after the schedule of the report.
pub fn contents(alloc: Global, report: &[u8]) -> Answer
    ensures { ReportAnswer ContentsQuestion report.now result.status result.text.items }
{
    match contents_words(alloc) {
        Ok(words) => serve(alloc, &words, report),
        Err(OutOfMemory) => Answer::out_of_memory(alloc),
    }
}

// The words that ask for a run by the seed.
fn run_words(alloc: Global, seed: u64) -> Result<Vec<String>, OutOfMemory>
    ensures { IfOk result (λ words. asked_by words.items ≡ Some (Run seed)) }
{
    let mut words = Vec::new(alloc);
    words.push(String::from_str(alloc, "run")?)?;
    words.push(seed.to_string(alloc)?)?;
    Ok(words)
}

// The words that ask for a check.
fn check_words(alloc: Global) -> Result<Vec<String>, OutOfMemory>
    ensures { IfOk result (λ words. asked_by words.items ≡ Some (Ask CheckQuestion)) }
{
    let mut words = Vec::new(alloc);
    words.push(String::from_str(alloc, "check")?)?;
    Ok(words)
}

// The words that ask what memory holds.
fn contents_words(alloc: Global) -> Result<Vec<String>, OutOfMemory>
    ensures { IfOk result (λ words. asked_by words.items ≡ Some (Ask ContentsQuestion)) }
{
    let mut words = Vec::new(alloc);
    words.push(String::from_str(alloc, "contents")?)?;
    Ok(words)
}

// The program's answer to the words and the input. A write can fail only for lack of memory.
fn serve(alloc: Global, words: &[String], input: &[u8]) -> Answer
    requires { (c : CommandData) → asked_by words.now ≡ Some c → is_alone c ≡ true }
    ensures { IsServedOrLacks (asked_by words.now) input.now result.status result.text.items }
{
    let Ok(bytes) = input.to_vec(alloc) else {
        return Answer::out_of_memory(alloc);
    };
    let mut source = SureSource::new(bytes);
    let mut sink = KeptSink::new(alloc);
    let mut journal = Journal::new(alloc);
    let status = semper_alone(alloc, words, &mut source, &mut sink, &mut journal);
    if status == Status::WriteFault {
        return Answer::out_of_memory(alloc);
    }
    Answer {
        status,
        text: sink.bytes,
    }
}
