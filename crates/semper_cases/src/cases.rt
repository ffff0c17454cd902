// A case: the words and the input for the program, and its expected output and exit status.
use sem_cli::{Command, command};
use sem_io::{MemSink, MemSource};
use sem_msg::Journal;
use sem_run::semper_alone;
use std::alloc::{AllocError, Global};

/// The most bytes that a case may write.
const MOST_BYTES: usize = 16_777_216;

/// The contents of a case's files.
#[derive(Debug, Drop)]
pub struct Case {
    /// The words of the command line, and a line feed.
    pub words: Vec<u8>,
    pub input: Vec<u8>,
    pub output: Vec<u8>,
    /// The number of the exit status, and a line feed.
    pub status: Vec<u8>,
}

/// Whether the program on one thread, with these words and this input, writes this output and ends
/// with this status. No case asks for threads.
pub fn passes(alloc: Global, case: &Case) -> Result<bool, AllocError> {
    let words = words_of(alloc, &case.words)?;
    if let Some(Command::Threads { .. } | Command::Soak { .. }) = command(&words) {
        return Ok(false);
    }
    let mut source = MemSource::new(case.input.to_vec(alloc)?, 4096, Vec::new(alloc));
    let mut sink = MemSink::new(alloc, MOST_BYTES, 4096, Vec::new(alloc))?;
    let mut journal = Journal::new(alloc);
    let status = semper_alone(alloc, &words, &mut source, &mut sink, &mut journal);
    let ended = format!(in alloc; "{}\n", status.number())?;
    Ok(ended.as_bytes() == case.status.as_slice() && sink.bytes == case.output)
}

fn words_of(alloc: Global, line: &[u8]) -> Result<Vec<String>, AllocError> {
    let mut words = Vec::new(alloc);
    let Ok(text) = str::from_utf8(line) else {
        return Ok(words);
    };
    for word in text.trim().split(' ') {
        words.push(String::from_str(alloc, word)?)?;
    }
    Ok(words)
}
