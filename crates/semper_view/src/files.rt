// Requests about files that the words name.
use sem_compare::{outcomes_merged, report_differences};
use sem_draw::Answer;
use std::alloc::AllocError;
use std::fs;

/// Why there is no answer.
#[derive(Clone, Copy, Debug, PartialEq, Eq)]
pub enum FileFault {
    /// A file could not be read, and standard error told so.
    Unread,
    Memory,
}

impl From<AllocError> for FileFault {
    fn from(_error: AllocError) -> Self {
        FileFault::Memory
    }
}

/// The samples in the files, put together.
pub fn merge(rt: &HostRuntime, names: &[String], is_json: bool) -> Result<Answer, FileFault> {
    let mut texts = Vec::new(rt.alloc());
    for name in names {
        if texts.push(contents(rt, name.as_str())?).is_err() {
            return Err(FileFault::Memory);
        }
    }
    Ok(outcomes_merged(rt.alloc(), texts.as_slice(), is_json)?)
}

/// The differences of the reports in two files.
pub fn diff(rt: &HostRuntime, one: &str, other: &str) -> Result<Answer, FileFault> {
    let one = contents(rt, one)?;
    let other = contents(rt, other)?;
    Ok(report_differences(rt.alloc(), one.as_slice(), other.as_slice())?)
}

// What the file holds.
fn contents(rt: &HostRuntime, name: &str) -> Result<Vec<u8>, FileFault> {
    match fs::read(rt, name) {
        Ok(bytes) => Ok(bytes),
        Err(_) => {
            let _ = eprintln!(rt; "semper-view: {name} could not be read");
            Err(FileFault::Unread)
        }
    }
}
