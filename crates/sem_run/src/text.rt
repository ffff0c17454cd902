// What a response writes.
ghost use Rattle.std.specs.Prelude.{OnErr, OnOk};
ghost use Rattle.sem_io.specs.Count.{Rose};
ghost use Rattle.sem_io.specs.SinkBytes.{Appends, AppendsPrefix};
ghost use Rattle.sem_run.specs.Texts.{text_of};

use crate::piece::Piece;
use sem_io::{Failed, Sink, write_all};
use sem_msg::Journal;

/// The text of a response.
#[derive(Drop)]
pub enum Text {
    /// All of its bytes.
    Whole(Vec<u8>),
    /// What a report has before the lines of its entries, and after them. Those lines are made as
    /// they are written.
    Report { head: Piece, tail: Vec<u8> },
}

impl Text {
    /// Writes the text of a response with that journal. Takes no memory.
    pub fn write<K: Sink>(self, out: &mut K, journal: &Journal) -> Result<(), Failed>
        ensures ok { OnOk result (Appends (K.written out.old) (K.written out.new)
            (text_of self journal.now.entries)) }
        ensures err { OnErr result (AppendsPrefix (K.written out.old) (K.written out.new)
            (text_of self journal.now.entries)) }
        ensures fault { OnErr result (Rose (K.faults out.old) (K.faults out.new)) }
    {
        match self {
            Text::Whole(bytes) => write_all(out, &bytes),
            Text::Report { head, tail } => {
                head.write_entries(out, journal.as_slice())?;
                write_all(out, &tail)
            }
        }
    }
}
