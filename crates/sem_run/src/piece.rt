// Lines that are made as they are written.
ghost use Rattle.std.specs.Prelude.{◌≡◌, ◌+◌, ◌≤◌, ◌++◌, ℕ, List, map, vec_len, vec_capacity};
ghost use Rattle.std.specs.Prelude.{IfOk, OnErr, OnOk};
ghost use Rattle.sem_io.specs.Count.{Rose};
ghost use Rattle.sem_io.specs.SinkBytes.{Appends, AppendsPrefix};
ghost use Rattle.sem_text.specs.Lines.{line, text};
ghost use Rattle.sem_journal.specs.EntryText.{entry_words};
ghost use Rattle.sem_journal.specs.declared.put.TheConstants.{MOST_LINE};

use sem_io::{Failed, Sink, write_all};
use sem_journal::{MOST_LINE, put_entry};
use sem_key::OutOfMemory;
use sem_msg::Entry;

// The room for lines that a piece begins with.
const ROOM: usize = 65536;

/// The bytes of a text that are to be written next. Once they are, there is room for any line. Only
/// `new` takes memory.
#[derive(Drop)]
pub struct Piece {
    pub bytes: Vec<u8>,
    ghost has_room: { MOST_LINE ≤ vec_capacity bytes },
}

impl Piece {
    /// A piece that begins with these bytes.
    pub fn new(mut bytes: Vec<u8>) -> Result<Self, OutOfMemory>
        ensures { IfOk result (λ piece. piece.bytes.items ≡ bytes.items) }
    {
        bytes.reserve(ROOM)?;
        Ok(Piece { bytes })
    }

    /// Writes what is there, and then the lines of the entries.
    pub fn write_entries<K: Sink>(mut self, out: &mut K, entries: &[Entry]) -> Result<(), Failed>
        ensures ok { OnOk result (Appends (K.written out.old) (K.written out.new)
            (self.bytes.items ++ text (map entry_words entries.now))) }
        ensures err { OnErr result (AppendsPrefix (K.written out.old) (K.written out.new)
            (self.bytes.items ++ text (map entry_words entries.now))) }
        ensures quiet { OnOk result (K.faults out.new ≡ K.faults out.old) }
        ensures fault { OnErr result (Rose (K.faults out.old) (K.faults out.new)) }
    {
        for entry in entries {
            self.put_line(out, entry)?;
        }
        write_all(out, &self.bytes)
    }

    // Appends the line of the entry. What it writes is the front of what is there then.
    fn put_line<K: Sink>(&mut self, out: &mut K, entry: &Entry) -> Result<(), Failed>
        ensures ok { OnOk result ((front : List ℕ)
            × Appends (K.written out.old) (K.written out.new) front
            × (self.old.bytes.items ++ line (entry_words entry.now)
            ≡ front ++ self.new.bytes.items)) }
        ensures err { OnErr result
            (AppendsPrefix (K.written out.old) (K.written out.new) self.old.bytes.items) }
        ensures quiet { OnOk result (K.faults out.new ≡ K.faults out.old) }
        ensures fault { OnErr result (Rose (K.faults out.old) (K.faults out.new)) }
    {
        self.make_room(out)?;
        put_entry(&mut self.bytes, entry);
        Ok(())
    }

    // Makes room for a line more. What it writes is the front of what was there.
    fn make_room<K: Sink>(&mut self, out: &mut K) -> Result<(), Failed>
        ensures room { OnOk result
            (vec_len self.new.bytes + MOST_LINE ≤ vec_capacity self.new.bytes) }
        ensures ok { OnOk result ((front : List ℕ)
            × Appends (K.written out.old) (K.written out.new) front
            × (self.old.bytes.items ≡ front ++ self.new.bytes.items)) }
        ensures err { OnErr result
            (AppendsPrefix (K.written out.old) (K.written out.new) self.old.bytes.items) }
        ensures quiet { OnOk result (K.faults out.new ≡ K.faults out.old) }
        ensures fault { OnErr result (Rose (K.faults out.old) (K.faults out.new)) }
    {
        if self.bytes.capacity() - self.bytes.len() < MOST_LINE {
            write_all(out, &self.bytes)?;
            self.bytes.clear();
        }
        Ok(())
    }
}
