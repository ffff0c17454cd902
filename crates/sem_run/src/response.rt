// What the program is about to leave.
ghost use Rattle.std.specs.Prelude.{◌≡◌, []};
ghost use Rattle.sem_io.specs.declared.transfer.ReadError.TheVariants.{Fault};
ghost use Rattle.sem_cli.specs.declared.statuses.Status.TheVariants.{ReadFault, Memory};
ghost use Rattle.sem_run.specs.Inputs.{Given as GivenRecord};
ghost use Rattle.sem_run.specs.Ends.{left};
ghost use Rattle.sem_run.specs.Readings.{Responds};
ghost use Rattle.sem_run.specs.Serves.{Serves};
ghost use Rattle.sem_run.specs.Texts.{text_of};

use crate::accepts::reports_are_accepted;
use crate::text::Text;
use sem_cli::Status;
use sem_io::{Failed, ReadError, Sink};
use sem_msg::Journal;
use std::alloc::Global;

/// What the program is about to leave: its status, its text and the journal of its run.
#[derive(Drop)]
pub struct Response {
    pub status: Status,
    pub text: Text,
    pub journal: Journal,
}

impl Response {
    /// A response of a command that runs nothing.
    pub fn told(alloc: Global, status: Status, text: Vec<u8>) -> Self
        ensures status { result.status ≡ status }
        ensures text { text_of result.text result.journal.entries ≡ text.items }
        ensures journal { result.journal.entries ≡ [] }
    {
        Response {
            status,
            text: Text::Whole(text),
            journal: Journal::new(alloc),
        }
    }

    /// The response if memory was refused, with the journal of the run so far.
    pub fn out_of_memory(alloc: Global, journal: Journal) -> Self
        ensures status { result.status ≡ Status.Memory }
        ensures text { text_of result.text result.journal.entries ≡ [] }
        ensures journal { result.journal ≡ journal }
    {
        Response {
            status: Status::Memory,
            text: Text::Whole(Vec::new(alloc)),
            journal,
        }
    }

    /// The response if the input could not be read.
    pub fn unread(alloc: Global, error: ReadError) -> Self
        ensures fault { error ≡ ReadError.Fault → result.status ≡ Status.ReadFault }
        ensures memory { error ≡ ReadError.Memory → result.status ≡ Status.Memory }
        ensures text { text_of result.text result.journal.entries ≡ [] }
        ensures journal { result.journal.entries ≡ [] }
    {
        let status = match error {
            ReadError::Fault => Status::ReadFault,
            ReadError::Memory => Status::Memory,
        };
        Response::told(alloc, status, Vec::new(alloc))
    }

    /// Writes the text, leaves the journal, and returns the status that the program ends with.
    pub fn leave<K: Sink>(self, out: &mut K, journal: &mut Journal) -> Status
        ensures { (g : GivenRecord) → Responds g self → Serves g
            (left K.written K.faults result journal.new.entries out.old out.new) }
    {
        reports_are_accepted();
        *journal = self.journal;
        match self.text.write(out, journal) {
            Ok(()) => self.status,
            Err(Failed) => Status::WriteFault,
        }
    }
}
